// What a call is run over, and what it answers.

/// Which call of an object fails, counted from 0, if one does.
pub type FailingCall = Option<u64>;

/// How many bytes the output has room for, how many a call of the input gives and of the output takes at most (one at least), and which
/// of their calls and of those of the files fail.
#[derive(Clone, Copy)]
pub struct Outside {
    pub room: usize,
    pub given: usize,
    pub taken: usize,
    pub files: FailingCall,
    pub input: FailingCall,
    pub out: FailingCall,
    pub err: FailingCall,
}

/// An outside without a failing call.
pub const SOUND: Outside = Outside {
    room: 4_000,
    given: 4096,
    taken: 4096,
    files: None,
    input: None,
    out: None,
    err: None,
};

/// The status of a call, what its output received, and what its error output was told.
#[derive(Drop)]
pub struct Answer {
    pub status: u8,
    pub out: Vec<u8>,
    pub err: Vec<u8>,
}

impl Answer {
    /// Whether it has this status and these texts.
    pub fn is(&self, status: u8, out: &[u8], err: &[u8]) -> bool {
        self.status == status && self.out.as_slice() == out && self.err.as_slice() == err
    }
}

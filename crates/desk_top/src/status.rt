// How a call ends.

/// How a call ends. The program's exit status is its number.
#[derive(Clone, Copy, Debug, PartialEq, Eq)]
pub enum Status {
    /// 0: all was read, and the text printed.
    Done,
    /// 1: the files or the input are refused.
    Refused,
    /// 2: the words are of no command.
    Usage,
    /// 3: a file is missing, or the outside failed.
    Outside,
    /// 4: out of memory.
    Memory,
    /// 5: the certificate is rejected.
    Rejected,
    /// 6: the verdict of the two runs is close.
    Close,
}

impl From<Status> for u8 {
    ghost use Rattle.std.specs.Prelude.{◌≡◌};
    ghost use Rattle.desk_top.specs.Status.{status_code};

    ghost from_gives = { λ status number. number ≡ status_code status };

    fn from(status: Status) -> u8 {
        match status {
            Status::Done => 0,
            Status::Refused => 1,
            Status::Usage => 2,
            Status::Outside => 3,
            Status::Memory => 4,
            Status::Rejected => 5,
            Status::Close => 6,
        }
    }
}

// Names as keys.
use name_table::Named;

/// A name that stands elsewhere.
#[derive(Clone, Copy)]
pub struct BorrowedKey<'a> {
    pub bytes: &'a [u8],
}

impl<'a> Named for BorrowedKey<'a> {
    ghost name = { λ key. key.bytes.now };

    fn bytes(&self) -> &[u8] {
        self.bytes
    }
}

// The names of a row in one.
ghost use Rattle.std.specs.Prelude.{◌≡◌, IfOk};
ghost use Rattle.sheet_merge.specs.Sheet.{IsSheetRow};
ghost use Rattle.sheet_merge.specs.Packed.{IsPacked, row_from};

use crate::row::RowRef;
use smallvec::SmallVec;
use std::alloc::{AllocError, Global};
use std::marker::Model;

/// The assessor and the place of a row in one. Up to 128 bytes take no allocation.
#[derive(Drop)]
pub struct PackedName {
    bytes: SmallVec<u8, 128>,
}

impl Model for PackedName {
    ghost use Rattle.std.specs.Prelude.{List, ℕ};

    ghost Value = { List ℕ };

    ghost view = { λ n. n.bytes.items };
}

impl PackedName {
    /// The names of a row. It fails only where memory runs out.
    pub fn new(alloc: Global, row: &RowRef<'_>) -> Result<PackedName, AllocError>
        requires { IsSheetRow row.now }
        ensures packed { IfOk result (λ name. IsPacked name) }
        ensures row { IfOk result (λ name.
            row_from (name, record { stamp = row.now.1.stamp; grade = row.now.1.grade }) ≡
            row.now) }
    {
        let who = row.who();
        let mut bytes = SmallVec::from_slice(alloc, &[who.len() as u8])?;
        bytes.extend_from_slice(who)?;
        bytes.extend_from_slice(row.place())?;
        Ok(PackedName { bytes })
    }

    /// The bytes.
    pub fn as_bytes(&self) -> &[u8]
        ensures { result.now ≡ self.now }
    {
        self.bytes.as_slice()
    }
}

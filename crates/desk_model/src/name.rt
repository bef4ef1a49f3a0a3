ghost use Rattle.std.specs.Prelude.{◌≡◌, ◌↔◌, true, false, IfOk, Err};
ghost use Rattle.std.specs.List.{list_all};
ghost use Rattle.desk_model.specs.declared.name.NameFault.TheVariants.{Memory as NoMemory};
ghost use Rattle.desk_model.specs.Name.{is_field_byte, is_name, is_same_name, name_cmp};

use desk_memory::Memory;
use std::alloc::Global;
use std::cmp::Ordering;
use std::marker::Model;

/// Why a name was not made.
#[derive(Clone, Copy, PartialEq, Eq, Debug)]
pub enum NameFault {
    /// The bytes are no name.
    BadName,
    /// Memory ran out.
    Memory,
}

impl From<Memory> for NameFault {
    ghost from_gives = { λ _ e. e ≡ NoMemory };

    fn from(_: Memory) -> NameFault {
        NameFault::Memory
    }
}

/// The name of a topic, a document or a run: 1 to 255 bytes, none of them a separator or a bad byte.
#[derive(Drop)]
pub struct Name {
    bytes: Vec<u8>,
}

impl Model for Name {
    ghost use Rattle.std.specs.Prelude.{◌≡◌, List, ℕ, true};
    ghost use Rattle.desk_model.specs.Name.{is_name};

    ghost Value = { List ℕ };

    ghost view = { λ n. n.bytes.items };

    ghost invariant = { λ n. is_name n.bytes.items ≡ true };
}

/// Whether each byte may stand in a field.
fn may_all_stand(bytes: &[u8]) -> bool
    ensures { result ≡ list_all is_field_byte bytes.now }
{
    bytes.iter().all(|b| *b >= 33 && *b != 127)
}

/// Whether bytes are a name.
pub fn is_a_name(bytes: &[u8]) -> bool
    ensures { result ≡ is_name bytes.now }
{
    1 <= bytes.len() && bytes.len() <= Name::LONGEST && may_all_stand(bytes)
}

impl Name {
    /// The greatest number of bytes of a name.
    pub const LONGEST: usize = 255;

    /// The name of these bytes, copied in one allocation. `BadName` comes exactly where the bytes are no name.
    pub fn new(alloc: Global, bytes: &[u8]) -> Result<Name, NameFault>
        ensures ok { IfOk result (λ name. name ≡ bytes.now) }
        ensures named { IfOk result (λ name. is_name name ≡ true) }
        ensures bad { (result ≡ Err NameFault.BadName) ↔ (is_name bytes.now ≡ false) }
    {
        if !is_a_name(bytes) {
            return Err(NameFault::BadName);
        }
        Ok(Name::copy_of(alloc, bytes)?)
    }

    /// The name of bytes that are one, copied in one allocation. The only error is out of memory.
    pub fn copy_of(alloc: Global, bytes: &[u8]) -> Result<Name, Memory>
        requires { is_name bytes.now ≡ true }
        ensures { IfOk result (λ name. name ≡ bytes.now) }
    {
        let bytes = bytes.to_vec(alloc)?;
        Ok(Name { bytes })
    }

    /// The bytes of the name.
    pub fn as_bytes(&self) -> &[u8]
        ensures bytes { result.now ≡ self.now }
        ensures name { is_name self.now ≡ true }
    {
        &self.bytes
    }

    /// Whether other bytes are this name.
    pub fn is_same(&self, other: &[u8]) -> bool
        ensures { result ≡ is_same_name self.now other.now }
    {
        self.bytes.as_slice() == other
    }

    /// How the name compares with other bytes: as lists of unsigned bytes, a proper prefix being the smaller.
    pub fn compare(&self, other: &[u8]) -> Ordering
        ensures { result ≡ name_cmp self.now other.now }
    {
        self.bytes.as_slice().cmp(other)
    }
}

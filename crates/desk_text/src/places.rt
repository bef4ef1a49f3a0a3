// What is kept of the fields of a line.
ghost use Rattle.std.specs.Prelude.{◌≡◌, ◌<◌, min, slice_get, slice_index_or, Some, []};
ghost use Rattle.desk_text.specs.Lines.{fields_of, AreFields};
ghost use Rattle.desk_text.specs.Places.{count_of, places_of};

/// A line holds a byte that may stand in no line.
#[derive(Clone, Copy, PartialEq, Eq, Debug)]
pub struct BadByte {
    /// The place of the first such byte, counted from 0.
    pub at: usize,
}

/// How many fields a line has, and where the first six of them stand.
#[derive(Clone, Copy)]
pub struct Fields {
    pub(crate) count: usize,
    pub(crate) places: [(usize, usize); 6],
}

impl Fields {
    /// How many fields the line has.
    pub fn count(&self) -> usize
        ensures { result ≡ count_of self.now }
    {
        self.count
    }

    /// Where field `i` of the line begins and where it ends. Fields and places are counted from 0.
    pub fn get(&self, i: usize) -> (usize, usize)
        requires { i < min (count_of self.now) 6 }
        ensures { slice_get (places_of self.now) i ≡ Some result }
    {
        self.places[i]
    }

    /// Field `i`, counted from 0, of the line that these fields are of.
    pub fn text<'a>(&self, line: &'a [u8], i: usize) -> &'a [u8]
        requires line { AreFields line.now (count_of self.now) (places_of self.now) }
        requires field { i < min (count_of self.now) 6 }
        ensures { result.now ≡ slice_index_or (fields_of line.now) i [] }
    {
        let (start, end) = self.get(i);
        &line[start..end]
    }
}

// What a line that judges says.
ghost use Rattle.std.specs.Prelude.{◌≡◌, ◌≤ℤ◌, true, pos, negsuc};
ghost use Rattle.desk_model.specs.Name.{is_name};

/// What a line `judge WHO TOPIC DOC GRADE` says. The assessor's is a name, and the grade is from -1,000 to 1,000.
#[derive(Clone, Copy)]
pub struct Judgement<'a> {
    pub who: &'a [u8],
    pub topic: &'a [u8],
    pub doc: &'a [u8],
    pub grade: i32,
    pub ghost named: { is_name who.now ≡ true },
    pub ghost low: { negsuc 999 ≤ℤ grade },
    pub ghost high: { grade ≤ℤ pos 1000 },
}

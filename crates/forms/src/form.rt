// A line's form; the functions that name its definitions stand in lib.rt, since this file is read before them.
ghost use Rattle.forms.specs.Small.{Small};

// The digits of each number that a line has behind its own, the digits before the payload, and whether a payload may follow.
#[derive(Clone, Copy)]
pub struct Form {
    pub widths: &'static [usize],
    pub front: usize,
    pub payload: bool,
    pub ghost small: { Small widths.now },
}

// How many answers are equal, and how many are not.
use std::fmt;

#[derive(Clone, Copy, Debug, Default, PartialEq, Eq)]
pub struct Counts {
    pub equal: u64,
    pub different: u64,
}

impl Counts {
    // Counts an answer.
    pub fn count(&mut self, equal: bool) {
        let counted = if equal {
            &mut self.equal
        } else {
            &mut self.different
        };
        *counted = counted.wrapping_add(1);
    }
}

impl fmt::Display for Counts {
    fn fmt<W: fmt::Write>(&self, f: &mut fmt::Formatter<W>) -> fmt::Result {
        let equal = self.equal;
        let different = self.different;
        write!(f, "{equal} equal, {different} different")
    }
}

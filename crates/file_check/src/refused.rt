// A refused file, told to a person.
use planfile::Fault;
use std::fmt;

// Number, place and words.
#[derive(Clone, Copy)]
pub struct Refused(pub Fault);

impl fmt::Display for Refused {
    fn fmt<W: fmt::Write>(&self, f: &mut fmt::Formatter<W>) -> fmt::Result {
        let fault = self.0;
        let number = fault.number();
        let unit = if fault.names_row() { "row" } else { "byte" };
        let place = fault.place();
        write!(f, "refused {number} at {unit} {place}: {fault}")
    }
}

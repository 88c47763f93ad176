// The parts of the program `vectors` that keep nothing from one case to the next: a case out of the file, put to the proved code, and the
// line that is printed for it. Each gives how many cases there were.
#![tactic(auto)]

pub mod images; // images.rt: images read, and tables written
pub mod imports; // imports.rt: tables of the older rigs brought in
pub mod linked; // linked.rt: links
pub mod relations; // relations.rt: potential access
pub mod shown; // shown.rt: chains
pub mod source; // source.rt: the bytes of a case
pub mod verdicts; // verdicts.rt: confinement tests

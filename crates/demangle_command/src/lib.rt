//! The program `demangle`: a command line over words, an input and two outputs, with the options that programs pass to c++filt.
#![tactic(auto)]

mod argument_files;
mod arguments;
mod command;
mod complaints;
mod escaping;
mod hint;
mod noted;
mod options;
mod process;
mod styled;
mod texts;

pub use argument_files::words_in;
pub use command::run_over;
pub use escaping::Escaping;
pub use process::program;
pub use styled::Styled;

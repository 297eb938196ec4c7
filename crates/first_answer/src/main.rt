//! The filter and nothing else: copies standard input, with each word that is a symbol replaced by its text.
#![tactic(auto)]

use std::io;
use std::process::ExitCode;
use sym_filter::{ReaderSource, WriterSink};
use sym_languages::filter_as;
use sym_print::Detail;

fn main(rt: HostRuntime) -> ExitCode {
    let mut reader = ReaderSource::new(rt.reader());
    let mut writer = WriterSink::new(io::writer(&rt));
    match filter_as(
        rt.alloc(),
        &mut reader,
        &mut writer,
        1_000_000,
        Detail::Full,
    ) {
        Ok(_) => ExitCode::SUCCESS,
        Err(_) => ExitCode::from(3),
    }
}

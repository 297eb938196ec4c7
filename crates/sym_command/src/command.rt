// The words of a command line, and its statuses.
ghost use Rattle.std.specs.Prelude.{◌≡◌, ◌≢◌, ◌+◌, ◌-◌, ◌^◌, ◌<◌, OnErr, IfOk, IfErr, map};
ghost use Rattle.sym_filter.specs.Streams.{writer_faults};
ghost use Rattle.sym_command.specs.Command.{Took, AnswersWords, AnswersFront, Says};

use crate::lines::answer_word;
use crate::options::Options;
use crate::page::Page;
use std::alloc::Global;
use sym_filter::{Demangler, FilterFault, Sink, write_all};

/// The status where each word has a text.
pub const ANSWERED: u8 = 0;

/// The status where a word has no text.
const REFUSED: u8 = 1;

/// The status of a command line that was refused, or that requested help.
pub const WRONG_USE: u8 = 2;

/// The status where reading, writing or memory failed.
pub const FAULT: u8 = 3;

/// Writes why a command line is refused, and answers the status.
///
/// # Errors
///
/// `Write` where the stream failed.
pub fn refuse_with<E: Sink>(err: &mut E, why: &[u8]) -> Result<u8, FilterFault>
    requires err_failures { E.failure_count err.old < 2 ^ 64 - 1 }
    ensures says { Says (E.taken err.old) (E.taken err.new) }
    ensures wrong_use { IfOk result (λ status. status ≡ 2) }
    ensures fault { IfErr result (λ fault. fault ≢ FilterFault.Read) }
    ensures failures { E.failure_count err.new ≡ E.failure_count err.old + writer_faults result }
{
    match write_all(err, why) {
        Ok(()) => Ok(WRONG_USE),
        Err(fault) => Err(fault),
    }
}

/// Writes the lines of words as the options request, and answers the status, which says whether each word has a text.
pub fn answer_words<D: Demangler, W: Sink, E: Sink>(
    alloc: Global,
    demangler: &D,
    options: Options,
    words: &[&str],
    out: &mut W,
    err: &mut E,
) -> Result<u8, FilterFault>
    requires out_failures { W.failure_count out.old < 2 ^ 64 - 1 }
    requires err_failures { E.failure_count err.old < 2 ^ 64 - 1 }
    ensures ok { IfOk result (λ status. Took (W.taken out.old) (W.taken out.new) (E.taken err.old) (E.taken err.new)
        (AnswersWords options.asked (D.answer demangler.now) (D.are_counts demangler.now) options.stats (map (λ word. word.now) words.now) status)) }
    ensures err { OnErr result (Took (W.taken out.old) (W.taken out.new) (E.taken err.old) (E.taken err.new)
        (AnswersFront options.asked (D.answer demangler.now) (D.are_counts demangler.now) options.stats (map (λ word. word.now) words.now))) }
    ensures fault { IfErr result (λ fault. fault ≢ FilterFault.Read) }
    ensures failures { W.failure_count out.new + E.failure_count err.new
        ≡ W.failure_count out.old + E.failure_count err.old + writer_faults result }
{
    let mut lists = demangler.lists(alloc)?;
    let mut page = Page::new(alloc);
    let mut status = ANSWERED;
    'words: for word in words {
        let has_text = match answer_word(
            alloc,
            demangler,
            &mut lists,
            options,
            word,
            &mut page.out,
            &mut page.err,
        ) {
            Ok(has_text) => has_text,
            Err(_) => {
                page.write(out, err)?;
                return Err(FilterFault::Memory);
            }
        };
        if !has_text {
            status = REFUSED;
        }
        page.write_when_full(out, err)?;
    }
    page.write(out, err)?;
    Ok(status)
}

// The filter over both manglings, with C++ by the ABI's grammar.
ghost use Rattle.std.specs.Prelude.{◌≡◌, ◌+◌, ◌-◌, ◌^◌, ◌<◌, IfOk, OnErr};
ghost use Rattle.sym_filter.specs.Streams.{reader_faults, writer_faults, FiltersAll, FiltersFront};
ghost use Rattle.sym_languages.specs.Languages.{answer_of};

use crate::languages::Languages;
use itanium::Abi;
use std::alloc::Global;
use sym_filter::{FilterFault, Sink, Source, Tally, filter_with};
use sym_print::Detail;
use sym_recent::Recent;

/// Reads all that the source gives, and writes it again. Each word that names a symbol is replaced by the symbol's whole text, if the text
/// costs at most the limit.
pub fn filter<R: Source, W: Sink>(
    alloc: Global,
    reader: &mut R,
    writer: &mut W,
    limit: u32,
) -> Result<Tally, FilterFault>
    requires reader_failures { R.failure_count reader.old < 2 ^ 64 - 1 }
    requires writer_failures { W.failure_count writer.old < 2 ^ 64 - 1 }
    ensures ok { IfOk result (λ tally. FiltersAll (answer_of limit Detail.Full)
        (R.coming reader.old) (R.coming reader.new) (W.taken writer.old) (W.taken writer.new) tally) }
    ensures err { OnErr result (FiltersFront (answer_of limit Detail.Full)
        (R.coming reader.old) (R.coming reader.new) (W.taken writer.old) (W.taken writer.new)) }
    ensures read_failed { R.failure_count reader.new ≡ R.failure_count reader.old + reader_faults result }
    ensures write_failed { W.failure_count writer.new ≡ W.failure_count writer.old + writer_faults result }
{
    filter_as(alloc, reader, writer, limit, Detail::Full)
}

/// Filters like `filter`, with texts in a detail.
pub fn filter_as<R: Source, W: Sink>(
    alloc: Global,
    reader: &mut R,
    writer: &mut W,
    limit: u32,
    detail: Detail,
) -> Result<Tally, FilterFault>
    requires reader_failures { R.failure_count reader.old < 2 ^ 64 - 1 }
    requires writer_failures { W.failure_count writer.old < 2 ^ 64 - 1 }
    ensures ok { IfOk result (λ tally. FiltersAll (answer_of limit detail)
        (R.coming reader.old) (R.coming reader.new) (W.taken writer.old) (W.taken writer.new) tally) }
    ensures err { OnErr result (FiltersFront (answer_of limit detail)
        (R.coming reader.old) (R.coming reader.new) (W.taken writer.old) (W.taken writer.new)) }
    ensures read_failed { R.failure_count reader.new ≡ R.failure_count reader.old + reader_faults result }
    ensures write_failed { W.failure_count writer.new ≡ W.failure_count writer.old + writer_faults result }
{
    let languages = Languages {
        limit,
        detail,
        cpp: Abi,
    };
    let recent = Recent {
        demangler: languages,
    };
    filter_with(alloc, reader, writer, &recent)
}

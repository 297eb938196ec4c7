// What the filtered text is, in terms of runs.
ghost use Rattle.sym_filter.specs.Everyday.{ReplacedAlike};
ghost use Rattle.sym_filter.specs.Runs.{TriesAreFew, TriesDecide};
ghost use Rattle.sym_filter.specs.Splits.{FilteredByJoins, FilteredByJoinsAt, FilteredBySplits, FilteredBySplitsAt};
ghost use Rattle.sym_filter.specs.declared.kinds.Letters.{Letters};

/// A law of the definitions: however a text is split into longest runs, its filtered text has each run
/// replaced, and the same bytes between them. Where words begin within runs, the law speaks of texts without escapes.
pub fn filtered_by_splits()
    ensures any { FilteredBySplits }
    ensures each { (letters : Letters) → FilteredBySplitsAt letters }
{}

/// A law of the definitions: if two texts are joined by a byte that belongs to no run and to no escape, such as a newline, the filtered
/// text of the whole is their filtered texts joined by this byte. So a text can be cut at the byte, and its pieces filtered apart.
pub fn filtered_by_joins()
    ensures any { FilteredByJoins }
    ensures each { (letters : Letters) → FilteredByJoinsAt letters }
{}

/// A law of the definitions: the text for a word that begins within a run depends only on the texts for the words that are tried; each of
/// these words is answered at the limit by itself. The words that are tried have together at most three times the word's bytes.
pub fn tries_decide()
    ensures decide { TriesDecide }
    ensures few { TriesAreFew }
{}

/// A law of the definitions: if a run in ASCII has a word with a text, the same text replaces the word whether words begin
/// within runs or are runs.
pub fn replaced_alike()
    ensures { ReplacedAlike }
{}

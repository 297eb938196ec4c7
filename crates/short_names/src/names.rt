// Names of the table.
ghost use Rattle.std.specs.Prelude.{◌≡◌, ◌≤◌, ◌<◌, ◌-◌, ◌++◌, ℕ, List, [], length, drop, take, get_or, nat_eq, true, false, slice_get, Some, None, is_some, codes, ◌&&◌, MatchOption, if◌then◌else◌};
ghost use Rattle.std.specs.List.{starts_with};
ghost use Rattle.std.specs.Cmp.Lexicographic.{pointwise};
ghost use Rattle.short_names.specs.Changes.{IsChange, has_list};
ghost use Rattle.short_names.specs.Names.{row_in, size_of, mark_of, template_in, behind_part, with_template, std_name, last_part, class_of, front_size, is_constructor, ends_name, member_in};
ghost use Rattle.short_names.specs.Runs.{is_letter, begins_std, run_of};
ghost use Rattle.short_names.specs.Texts.{text_of};
ghost use Rattle.short_names.specs.declared.table.Place.{Place as PlaceRow};
ghost use Rattle.short_names.specs.declared.table.Template.{Template as TemplateRow};
ghost use Rattle.short_names.specs.declared.table.TheConstants.{TEMPLATES, ALIASES, WHOLES, PARTS};

use crate::patterns::text_at;
use crate::runs::{is_letter, is_name_byte};
use crate::table::{
    ALIASES, Alias, FIRST, LONGEST, MARKS, PARTS, Place, STD, TEMPLATES, Template, USUAL_FIRSTS,
    WHOLES,
};

/// A name of the table: its `std::`, with the inline namespace that holds all of `std` if there is one, and its template.
#[derive(Clone, Copy)]
pub(crate) struct Named {
    pub whole: Place,
    pub template: Template,
}

impl Named {
    /// The name of the table with a template's row.
    pub(crate) fn of_row(whole: Place, row: usize) -> Named
        requires { row < length TEMPLATES }
        ensures { with_template whole (slice_get TEMPLATES row) ≡ Some result }
    {
        let template = TEMPLATES[row];
        Named { whole, template }
    }
}

/// Whether a text begins with a text of the table.
#[inline(always)]
fn begins_with(text: &[u8], row: &[u8]) -> bool
    ensures { result ≡ starts_with nat_eq text.now row.now }
{
    // most rows differ in the third byte from the end, which is the one before a last `::`
    match row {
        [.., byte, _, _] => match text.get(row.len() - 3) {
            Some(same) => *byte == *same && text.starts_with(row),
            None => false,
        },
        _ => text.starts_with(row),
    }
}

/// The first of some texts of the table with which a text begins.
fn row_in(rows: &[Place], text: &[u8]) -> Option<Place>
    ensures { result ≡ row_in rows.now text.now }
{
    let mut k = 0;
    'rows: while k < rows.len() {
        if begins_with(text, text_at(rows[k])) {
            return Some(rows[k]);
        }
        k += 1;
    }
    None
}

/// The size of the first of some texts of the table with which a text begins; 0 if there is none.
pub(crate) fn row_size(rows: &[Place], text: &[u8]) -> usize
    ensures within { result ≤ length text.now }
    ensures size { result ≡ size_of (row_in rows.now text.now) }
{
    match row_in(rows, text) {
        Some(row) => text_at(row).len(),
        None => 0,
    }
}

/// What templates are looked up by: the first byte of a name and the third from its end.
#[inline(always)]
#[tactic(auto, unfolding(crate::specs::Names::mark_of))]
fn mark_of(name: &[u8]) -> u16
    ensures { result ≡ mark_of name.now }
{
    if name.len() < 3 {
        return 0;
    }
    name[0] as u16 + name[name.len() - 3] as u16 * 256
}

/// Whether a name with a mark is that of the template in a row.
#[inline(always)]
fn has_name(row: usize, mark: u16, name: &[u8]) -> bool
    requires within { row < length TEMPLATES }
    requires mark { mark ≡ mark_of name.now }
    ensures { (template : TemplateRow) → slice_get TEMPLATES row ≡ Some template → result ≡ pointwise nat_eq (text_of template.name) name.now }
{
    MARKS[row] == mark && text_at(TEMPLATES[row].name) == name
}

/// The row of the template of a name.
fn row_of(name: &[u8]) -> Option<usize>
    ensures { MatchOption result (template_in TEMPLATES name.now ≡ None)
        (λ row. (row < length TEMPLATES) × (template_in TEMPLATES name.now ≡ slice_get TEMPLATES row)) }
{
    if name.len() >= LONGEST {
        return None;
    }
    let mut row = FIRST[name.len()] as usize;
    let end = (FIRST[name.len() + 1] as usize).min(TEMPLATES.len());
    let mark = mark_of(name);
    'rows: while row < end {
        if has_name(row, mark, name) {
            return Some(row);
        }
        row += 1;
    }
    None
}

/// A name without the inline namespace at its front that holds a part of `std`, if there is one.
fn behind_part(name: &[u8]) -> &[u8]
    ensures { result.now ≡ behind_part name.now }
{
    if name.starts_with(b"_") {
        return &name[row_size(&PARTS, name)..];
    }
    name
}

/// A name of `std`, in two parts: its `std::`, and what comes after that. The first part has the inline namespace that holds all of `std`,
/// if there is one. The second part lacks the inline namespace that holds a part of `std`.
#[derive(Clone, Copy)]
struct StdName<'a> {
    whole: Place,
    name: &'a [u8],
}

/// A run as a name of `std`, where an inline namespace may come after `std::`.
#[inline(never)]
fn inline_name(run: &[u8]) -> Option<StdName<'_>>
    ensures { MatchOption result (std_name run.now ≡ None) (λ it. std_name run.now ≡ Some (record { whole = it.whole; name = it.name.now })) }
{
    match row_in(&WHOLES, run) {
        None => None,
        Some(whole) => {
            let size = text_at(whole).len();
            let name = behind_part(&run[size..]);
            Some(StdName { whole, name })
        }
    }
}

/// A run that begins with `std::`, as a name of `std`.
#[inline(always)]
fn std_name(run: &[u8]) -> Option<StdName<'_>>
    requires { begins_std run.now ≡ true }
    ensures { MatchOption result (std_name run.now ≡ None) (λ it. std_name run.now ≡ Some (record { whole = it.whole; name = it.name.now })) }
{
    let name = &run[5..];
    if name.starts_with(b"_") {
        return inline_name(run);
    }
    Some(StdName { whole: STD, name })
}

/// The last part of a name.
pub(crate) fn last_part(name: &[u8]) -> &[u8]
    ensures { result.now ≡ last_part name.now }
{
    let mut start = name.len();
    'bytes: while start > 0 {
        let byte = name[start - 1];
        if byte == b':' {
            return &name[start..];
        }
        start -= 1;
    }
    name
}

/// The name of the constructors of a usual name's class.
#[tactic(auto, unfolding(crate::specs::Names::class_of))]
pub(crate) fn class_of(alias: Alias) -> &'static [u8]
    ensures { result.now ≡ class_of alias }
{
    let usual = last_part(text_at(alias.name));
    let class = last_part(text_at(alias.template));
    if usual.len() <= class.len() {
        usual
    } else {
        class
    }
}

/// The size of what comes before a member's name, `::` or `::~`, in a text that begins with one of these.
#[inline(always)]
fn front_size(text: &[u8]) -> usize
    ensures within { starts_with nat_eq text.now (codes "::") ≡ true → result ≤ length text.now }
    ensures few { result ≤ 3 }
    ensures size { result ≡ front_size text.now }
{
    if text.starts_with(b"::~") { 3 } else { 2 }
}

/// Whether a byte of a name without `::` is at a place of a text.
#[inline(always)]
fn has_letter(text: &[u8], at: usize) -> bool
    ensures { result ≡ is_letter (get_or text.now at 0) }
{
    at < text.len() && is_letter(text[at])
}

/// Whether a text begins with a constructor's or destructor's name of a class.
pub(crate) fn is_constructor(text: &[u8], class: &[u8]) -> bool
    ensures { result ≡ is_constructor text.now class.now }
{
    if !text.starts_with(b"::") {
        return false;
    }
    let size = front_size(text);
    let member = &text[size..];
    if !begins_with(member, class) {
        return false;
    }
    !has_letter(text, size + class.len())
}

/// What comes before the name of a class's constructor or destructor, `::` or `::~`, if a text begins with both; else nothing.
pub(crate) fn before_constructor<'a>(text: &'a [u8], class: &[u8]) -> &'a [u8]
    ensures { result.now ≡ if is_constructor text.now class.now then take (front_size text.now) text.now else [] }
{
    if is_constructor(text, class) {
        let size = front_size(text);
        return &text[..size];
    }
    &[]
}

/// Whether a name ends before the rest of a text: no byte of a longer name is next, and no list.
pub(crate) fn ends_name(rest: &[u8]) -> bool
    ensures { result ≡ ends_name rest.now }
{
    if rest.starts_with(b"::") {
        return true;
    }
    match rest {
        [] => true,
        [byte, ..] => !is_name_byte(*byte) && *byte != b'<',
    }
}

/// What becomes shorter at a name of `std`, or may do so.
#[derive(Clone, Copy)]
pub(crate) enum Change {
    /// Nothing becomes shorter.
    Nothing,
    /// The list that follows a name of the table, by the name's `std::` and the row of its template.
    List { whole: Place, row: usize },
    /// A constructor or destructor that follows a usual name, by the row of that name, and how many bytes come before that name's end.
    Member { row: usize, size: usize },
}

/// Whether a name may begin with a usual name that a member's name follows: a name without a colon
/// can't.
#[inline(always)]
fn may_have_member(name: &[u8]) -> bool
    ensures { result ≡ false → (text : List ℕ) → name.now ≡ run_of text → member_in ALIASES name.now text ≡ None }
{
    match name {
        [first, ..] => USUAL_FIRSTS[*first as usize] == b'1' && name.contains(&b':'),
        [] => false,
    }
}

/// Whether a name, which is the run at a text's front, begins with a usual name, followed by a constructor or destructor with the
/// template's name.
#[inline(always)]
fn is_member(alias: Alias, name: &[u8], text: &[u8]) -> bool
    requires { name.now ≡ run_of text.now }
    ensures { result ≡ (starts_with nat_eq name.now (text_of alias.name)
        && is_constructor (drop (length (text_of alias.name)) text.now) (last_part (text_of alias.template))) }
{
    let usual = text_at(alias.name);
    begins_with(name, usual)
        && is_constructor(&text[usual.len()..], last_part(text_at(alias.template)))
}

/// The first row with a usual name that begins a name and precedes a constructor's or destructor's name.
fn member_row(name: &[u8], text: &[u8]) -> Option<usize>
    requires { name.now ≡ run_of text.now }
    ensures { MatchOption result (member_in ALIASES name.now text.now ≡ None)
        (λ row. (row < length ALIASES) × (member_in ALIASES name.now text.now ≡ slice_get ALIASES row)) }
{
    if !may_have_member(name) {
        return None;
    }
    let mut row = 0;
    'rows: while row < ALIASES.len() {
        if is_member(ALIASES[row], name, text) {
            return Some(row);
        }
        row += 1;
    }
    None
}

/// The row of the template of a name, where a list follows it.
#[inline(always)]
fn list_row(name: &[u8], rest: &[u8]) -> Option<usize>
    ensures { MatchOption result ((starts_with nat_eq rest.now (codes "<") && is_some (template_in TEMPLATES name.now)) ≡ false)
        (λ row. (starts_with nat_eq rest.now (codes "<") ≡ true) × (row < length TEMPLATES) × (template_in TEMPLATES name.now ≡ slice_get TEMPLATES row)) }
{
    if rest.starts_with(b"<") {
        row_of(name)
    } else {
        None
    }
}

/// What becomes shorter at a run that ends with a name of `std` without a list after it. The text begins with the run.
fn member_change(text: &[u8], run: &[u8], name: &[u8]) -> Change
    requires std { (whole : PlaceRow) × (std_name run.now ≡ Some (record { whole = whole; name = name.now })) }
    requires run { run.now ≡ run_of text.now }
    requires no_list { has_list run.now (drop (length run.now) text.now) ≡ false }
    ensures { IsChange run.now (drop (length run.now) text.now) result }
{
    let from = run.len() - name.len();
    match member_row(name, &text[from..]) {
        None => Change::Nothing,
        Some(row) => {
            let size = from + text_at(ALIASES[row].name).len();
            Change::Member { row, size }
        }
    }
}

/// What becomes shorter at a run that is a name of `std`.
#[inline(always)]
fn std_change(text: &[u8], run: &[u8], std: StdName<'_>) -> Change
    requires std { std_name run.now ≡ Some (record { whole = std.whole; name = std.name.now }) }
    requires run { run.now ≡ run_of text.now }
    ensures { IsChange run.now (drop (length run.now) text.now) result }
{
    match list_row(std.name, &text[run.len()..]) {
        None => member_change(text, run, std.name),
        Some(row) => {
            let whole = std.whole;
            Change::List { whole, row }
        }
    }
}

/// What becomes shorter at a run that begins with `std::`. The text begins with the run.
pub(crate) fn change_at(text: &[u8], run: &[u8]) -> Change
    requires { (begins_std run.now ≡ true) × (run.now ≡ run_of text.now) }
    ensures { IsChange run.now (drop (length run.now) text.now) result }
{
    match std_name(run) {
        None => Change::Nothing,
        Some(std) => std_change(text, run, std),
    }
}

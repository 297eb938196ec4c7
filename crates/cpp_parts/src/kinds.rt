// What a symbol is, by its nodes.
#![tactic(auto)]

ghost use Rattle.std.specs.Prelude.{◌≡◌, ◌<◌, length};
ghost use Rattle.cpp_tree.specs.Views.{plain_tree};
ghost use Rattle.cpp_layout.specs.Layout.{table_of, whole_of};
ghost use Rattle.cpp_parts.specs.Kinds.{encoding_kind, is_call, is_lambda, is_string, kind_of_symbol, named_kind, object_kind, of_name_kind, own_name, piece_of, special_kind};
ghost use Rattle.cpp_parts.specs.KindNumbers.{IsInner, called_kind, inner_part_by, is_any, is_constructor_by, is_lambda_by, is_operator_by, is_string_by, local_kind, other_kind_by, piece_kind_by};

use cpp_layout::{Symbol, tree_production as production};
use sym_parts::NameKind;

/// Whether a production is one of three.
#[tactic(auto, unfolding(crate::specs::KindNumbers::is_any))]
fn is_any(found: u16, first: u16, second: u16, third: u16) -> bool
    ensures { result ≡ is_any found first second third }
{
    found == first || found == second || found == third
}

/// Whether an own name of this production is a string literal's.
#[tactic(auto, unfolding(crate::specs::KindNumbers::is_string_by))]
fn is_string(found: u16) -> bool
    ensures { result ≡ is_string_by found }
{
    is_any(
        found,
        production::STRING_LITERAL,
        production::STD_STRING_LITERAL,
        production::NESTED_STRING_LITERAL,
    )
}

/// Whether an own name of this production is a lambda's.
#[tactic(auto, unfolding(crate::specs::KindNumbers::is_lambda_by))]
fn is_lambda_name(found: u16) -> bool
    ensures { result ≡ is_lambda_by found }
{
    is_any(
        found,
        production::LAMBDA,
        production::STD_LAMBDA,
        production::NESTED_LAMBDA,
    ) || is_any(
        found,
        production::GENERIC_LAMBDA,
        production::STD_GENERIC_LAMBDA,
        production::NESTED_GENERIC_LAMBDA,
    )
}

/// Whether an own name of this production is a constructor's.
#[tactic(auto, unfolding(crate::specs::KindNumbers::is_constructor_by))]
fn is_constructor(found: u16) -> bool
    ensures { result ≡ is_constructor_by found }
{
    is_any(
        found,
        production::CONSTRUCTOR,
        production::STD_CONSTRUCTOR,
        production::NESTED_CONSTRUCTOR,
    ) || is_any(
        found,
        production::INHERITING,
        production::STD_INHERITING,
        production::NESTED_INHERITING,
    )
}

/// Whether an own name of this production is an operator's.
#[tactic(auto, unfolding(crate::specs::KindNumbers::is_operator_by))]
fn is_operator(found: u16) -> bool
    ensures { result ≡ is_operator_by found }
{
    is_any(
        found,
        production::OPERATOR,
        production::STD_OPERATOR,
        production::NESTED_OPERATOR,
    )
}

/// The number of the part that has a tree's own name, by the tree's production; none if the tree is itself an own name.
#[tactic(auto, unfolding(crate::specs::KindNumbers::inner_part_by))]
fn inner_part(found: u16) -> Option<u32>
    ensures { result ≡ inner_part_by found }
{
    if found == production::LOCAL || found == production::NUMBERED_LOCAL {
        return Some(1);
    }
    if found == production::INSTANCE
        || found == production::TAGGED
        || found == production::OF_DEFAULT
        || found == production::HOLDER
    {
        return Some(0);
    }
    None
}

/// The earlier node that has the same own name; none if the node is itself an own name.
fn inner_node(y: &Symbol, node: u32) -> Option<u32>
    requires { node < length y.now.table.nodes }
    ensures { IsInner y.now node result }
{
    match inner_part(y.node(node).production) {
        Some(k) => Some(y.part(node, k)),
        None => None,
    }
}

/// The node of a name's own name.
fn own_node(y: &Symbol, node: u32) -> u32
    requires { node < length y.now.table.nodes }
    ensures is { plain_tree (table_of y.now) result ≡ own_name (plain_tree (table_of y.now) node) }
    ensures below { result < length y.now.table.nodes }
{
    let mut at = node;
    'names: while let Some(inner) = inner_node(y, at) {
        at = inner;
    }
    at
}

/// Whether a name is a lambda's.
fn is_lambda(y: &Symbol, node: u32) -> bool
    requires { node < length y.now.table.nodes }
    ensures { result ≡ is_lambda (plain_tree (table_of y.now) node) }
{
    is_lambda_name(y.node(own_node(y, node)).production)
}

/// Whether the letters of an operator's code are those of a call.
#[tactic(auto, unfolding(crate::specs::Kinds::is_call))]
fn is_call(first: u64, second: u64) -> bool
    ensures { result ≡ is_call first second }
{
    first == 99 && second == 108
}

/// The kind of an operator after a prefix.
#[tactic(auto, unfolding(crate::specs::KindNumbers::called_kind))]
fn called_kind(in_lambda: bool, is_call: bool) -> NameKind
    ensures { result ≡ called_kind in_lambda is_call }
{
    if in_lambda && is_call {
        return NameKind::Lambda;
    }
    NameKind::Operator
}

/// The kind of a function by the production of its own name, which isn't that of a lambda's call.
#[tactic(auto, unfolding(crate::specs::KindNumbers::piece_kind_by))]
fn piece_kind(found: u16) -> NameKind
    ensures { result ≡ piece_kind_by found }
{
    if is_constructor(found) {
        return NameKind::Constructor;
    }
    if is_any(
        found,
        production::DESTRUCTOR,
        production::STD_DESTRUCTOR,
        production::NESTED_DESTRUCTOR,
    ) {
        return NameKind::Destructor;
    }
    if is_operator(found) {
        return NameKind::Operator;
    }
    if is_any(
        found,
        production::LITERAL_OPERATOR,
        production::STD_LITERAL_OPERATOR,
        production::NESTED_LITERAL_OPERATOR,
    ) {
        return NameKind::LiteralOperator;
    }
    if is_any(
        found,
        production::CONVERSION,
        production::STD_CONVERSION,
        production::NESTED_CONVERSION,
    ) {
        return NameKind::Conversion;
    }
    NameKind::Function
}

/// The kind of a function by its own name.
fn named_kind(y: &Symbol, node: u32) -> NameKind
    requires { node < length y.now.table.nodes }
    ensures { result ≡ named_kind (plain_tree (table_of y.now) node) }
{
    let found = y.node(node);
    if found.production == production::NESTED_OPERATOR {
        let in_lambda = is_lambda(y, y.part(node, 0));
        return called_kind(in_lambda, is_call(found.numbers[0], found.numbers[1]));
    }
    piece_kind(found.production)
}

/// The kind of an entity in a function: a string literal, or a local variable.
#[tactic(auto, unfolding(crate::specs::KindNumbers::local_kind))]
fn local_kind(is_string: bool) -> NameKind
    ensures { result ≡ local_kind is_string }
{
    if is_string {
        return NameKind::StringLiteral;
    }
    NameKind::LocalVariable
}

/// Whether a name is a string literal's.
fn is_string_name(y: &Symbol, node: u32) -> bool
    requires { node < length y.now.table.nodes }
    ensures { result ≡ is_string (piece_of (own_name (plain_tree (table_of y.now) node))) }
{
    is_string(y.node(own_node(y, node)).production)
}

/// The kind of an encoding without parameters, by its name.
fn object_kind(y: &Symbol, node: u32) -> NameKind
    requires { node < length y.now.table.nodes }
    ensures { result ≡ object_kind (plain_tree (table_of y.now) node) }
{
    let found = y.node(node).production;
    if found == production::LOCAL {
        return local_kind(is_string_name(y, y.part(node, 1)));
    }
    if found == production::NUMBERED_LOCAL {
        return local_kind(is_string_name(y, y.part(node, 1)));
    }
    NameKind::Variable
}

/// The kind of a special name that belongs to a type, by the last letter of the name's code.
#[tactic(auto, unfolding(crate::specs::Kinds::special_kind))]
fn special_kind(letter: u64) -> NameKind
    ensures { result ≡ special_kind letter }
{
    if letter == 86 {
        return NameKind::Vtable;
    }
    if letter == 84 {
        return NameKind::Vtt;
    }
    if letter == 73 {
        return NameKind::Typeinfo;
    }
    if letter == 83 {
        return NameKind::TypeinfoName;
    }
    if letter == 65 {
        return NameKind::TemplateObject;
    }
    NameKind::Function
}

/// The kind of a special name that belongs to a variable, by the last letter of the name's code.
#[tactic(auto, unfolding(crate::specs::Kinds::of_name_kind))]
fn of_name_kind(letter: u64) -> NameKind
    ensures { result ≡ of_name_kind letter }
{
    if letter == 86 {
        return NameKind::Guard;
    }
    if letter == 72 {
        return NameKind::TlsInit;
    }
    if letter == 87 {
        return NameKind::TlsWrapper;
    }
    NameKind::ReferenceTemporary
}

/// The kind of an encoding that is neither a function nor an object, by its production and, if it has one, by its letter.
#[tactic(auto, unfolding(crate::specs::KindNumbers::other_kind_by))]
fn other_kind(found: u16, letter: u64) -> NameKind
    ensures { result ≡ other_kind_by found letter }
{
    if found == production::SPECIAL {
        return special_kind(letter);
    }
    if found == production::GUARD {
        return NameKind::Guard;
    }
    if found == production::OF_NAME {
        return of_name_kind(letter);
    }
    if found == production::THUNK {
        return NameKind::Thunk;
    }
    if found == production::TABLE_THUNK {
        return NameKind::VirtualThunk;
    }
    if found == production::COVARIANT_THUNK {
        return NameKind::CovariantThunk;
    }
    if found == production::WIDE_THUNK {
        return NameKind::CovariantThunk;
    }
    if found == production::CONSTRUCTION {
        return NameKind::ConstructionVtable;
    }
    if found == production::CLONE {
        return NameKind::TransactionClone;
    }
    NameKind::Variable
}

/// The kind of an encoding.
fn encoding_kind(y: &Symbol, node: u32) -> NameKind
    requires { node < length y.now.table.nodes }
    ensures { result ≡ encoding_kind (plain_tree (table_of y.now) node) }
{
    let found = y.node(node);
    if found.production == production::FUNCTION {
        return named_kind(y, own_node(y, y.part(node, 0)));
    }
    if found.production == production::OBJECT {
        return object_kind(y, y.part(node, 0));
    }
    other_kind(found.production, found.numbers[0])
}

/// The kind of a symbol.
pub fn kind_of(y: &Symbol) -> NameKind
    ensures { result ≡ kind_of_symbol (whole_of y.now) }
{
    let root = y.root_node();
    if y.node(root).production == production::SYMBOL {
        return encoding_kind(y, y.part(root, 0));
    }
    NameKind::Variable
}

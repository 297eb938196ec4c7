// The spellings of names.
#![tactic(auto)]

ghost use Rattle.std.specs.Prelude.{◌≡◌, ◌≤◌, ◌<◌, ◌+◌, ◌-◌, ◌++◌, length, codes, false};
ghost use Rattle.cpp_press_laws.specs.Texts.{ordinal};
ghost use Rattle.cpp_press_laws.specs.Pressing.{is_operator, is_encoding, is_one_piece, is_name, is_nested};
ghost use Rattle.cpp_grammar.specs.Scope.{without_tags};
ghost use Rattle.cpp_tree.specs.Nodes.{bytes_at, qualifiers_of, mark_of, discriminator_of, is_again, IsSpan, IsTable, IsWithin};
ghost use Rattle.cpp_layout.specs.Layout.{ReadSymbol, table_of};
ghost use Rattle.cpp_spelling.specs.Bytes.{text_bytes, IsThere};
ghost use Rattle.cpp_spelling.specs.Weight.{weight};
ghost use Rattle.cpp_spelling.specs.Tasks.{◌onto◌, written, in_way, plain_at, node_tree, piece_tree, IsMade, IsPieceMade, press_tasks, AreTasks, HasRoom, TakesRoom, way_weight, tasks_weight};
ghost use Rattle.cpp_spelling.specs.Spelled.{piece_onto, in_std_onto, within_onto, nested_onto, tag_onto, tagged_onto, between_onto, prefix_onto, has_letters, plain_name_onto, lettered_onto, local_onto, is_prefix, name_onto, is_piece_behind};

use crate::stored::stored;
use crate::task::{
    Task, Way, then_arguments, then_ended, then_fixed, then_template, then_text, then_tree,
};
use crate::texts::Text;
use cpp_layout::Symbol;
use cpp_tree::node::{Mark, Node, Piece, Qualifiers};
use sym_core::Span;

/// Whether a piece of a name is an operator.
#[tactic(auto, unfolding(cpp_press_laws::specs::Pressing::is_operator, cpp_term::specs::Erased::erase, cpp_tree::specs::Nodes::piece_of))]
pub fn is_operator(piece: Piece) -> bool
    ensures { (y : ReadSymbol) → result ≡ is_operator (piece_tree y piece) }
{
    match piece {
        Piece::Operator(_, _) => true,
        Piece::LiteralOperator(_) => true,
        _ => false,
    }
}

/// Whether a node is an encoding.
fn is_encoding(node: Node) -> bool
    requires own { is_again node ≡ false }
    ensures { (y : ReadSymbol) → result ≡ is_encoding (node_tree y node) }
{
    node.is_encoding()
}

/// A name without its tags, as it is stored.
fn without_tags(symbol: &Symbol, name: u32) -> Node
    requires table { IsTable (table_of symbol.now) }
    requires name { name < length symbol.now.table.nodes }
    ensures tree { node_tree symbol.now result ≡ without_tags (plain_at symbol.now name) }
    ensures own { is_again result ≡ false }
    ensures below { IsMade symbol.now result }
{
    match symbol.entry(name).untagged {
        Some(untagged) => stored(symbol, untagged.node),
        None => stored(symbol, name),
    }
}

/// Whether a name that isn't a prefix needs an N. The name may have tags.
#[tactic(auto, unfolding(cpp_press_laws::specs::Pressing::is_nested, cpp_term::specs::Erased::erase, cpp_tree::specs::Nodes::tree_of, cpp_tree::specs::Nodes::is_again))]
pub fn is_nested(symbol: &Symbol, name: u32) -> bool
    requires table { IsTable (table_of symbol.now) }
    requires name { name < length symbol.now.table.nodes }
    ensures { result ≡ is_nested (without_tags (plain_at symbol.now name)) }
{
    match without_tags(symbol, name) {
        Node::Within { .. } => true,
        _ => false,
    }
}

/// Whether a name is one piece after an encoding. The name may have tags.
#[tactic(auto, unfolding(crate::specs::Spelled::is_piece_behind, cpp_press_laws::specs::Pressing::is_behind_encoding, cpp_term::specs::Erased::erase, cpp_tree::specs::Nodes::tree_of, cpp_tree::specs::Nodes::is_again))]
fn is_piece_behind(symbol: &Symbol, name: u32) -> bool
    requires table { IsTable (table_of symbol.now) }
    requires name { name < length symbol.now.table.nodes }
    ensures { result ≡ is_piece_behind (plain_at symbol.now name) }
{
    match without_tags(symbol, name) {
        Node::Within { prefix, .. } => is_encoding(stored(symbol, prefix)),
        _ => false,
    }
}

/// Whether an entity is one piece after its encoding. The piece may have arguments.
#[tactic(auto, unfolding(cpp_press_laws::specs::Pressing::is_one_piece, cpp_term::specs::Erased::erase, cpp_tree::specs::Nodes::tree_of, cpp_tree::specs::Nodes::is_again))]
fn is_one_piece(symbol: &Symbol, entity: u32) -> bool
    requires table { IsTable (table_of symbol.now) }
    requires entity { entity < length symbol.now.table.nodes }
    ensures { result ≡ is_one_piece (plain_at symbol.now entity) }
{
    match stored(symbol, entity) {
        Node::Instance { template, .. } => is_piece_behind(symbol, template),
        _ => is_piece_behind(symbol, entity),
    }
}

/// A lambda (ABI 5.1.7, `<closure-type-name> ::= Ul <lambda-sig> E [ <number> ] _`). Its parameters are spelled in a given way.
#[tactic(auto, unfolding(crate::specs::Bytes::text_bytes))]
fn then_lambda(
    symbol: &Symbol,
    parameters: u32,
    way: Way,
    number: u64,
    encoding: u64,
    tasks: &mut Vec<Task>,
)
    requires parameters { parameters < length symbol.now.table.nodes }
    requires tasks { AreTasks symbol.now tasks.old.items }
    requires room { HasRoom tasks.old 3 }
    ensures presses { press_tasks symbol.now tasks.new.items ≡ written (codes "Ul") onto in_way encoding way (plain_at symbol.now parameters) onto written (codes "E" ++ ordinal (number - 1)) onto press_tasks symbol.now tasks.old.items }
    ensures weight { tasks_weight symbol.now tasks.new.items ≡ 2 + way_weight way + weight (plain_at symbol.now parameters) + tasks_weight symbol.now tasks.old.items }
    ensures tasks { AreTasks symbol.now tasks.new.items }
    ensures room { TakesRoom tasks.old tasks.new 3 }
{
    then_text(symbol, Text::Ordinal(b"E", number.saturating_sub(1)), tasks);
    then_tree(symbol, parameters, way, encoding, tasks);
    then_fixed(symbol, b"Ul", tasks);
}

/// A piece of a name (ABI 5.1.2, `<unqualified-name>`).
#[tactic(auto, unfolding(crate::specs::Spelled::piece_onto, cpp_term::specs::Erased::erase, cpp_tree::specs::Nodes::piece_of, crate::specs::Weight::weight, crate::specs::Bytes::text_bytes))]
pub fn then_piece(symbol: &Symbol, piece: Piece, encoding: u64, tasks: &mut Vec<Task>)
    requires piece { IsPieceMade symbol.now piece }
    requires tasks { AreTasks symbol.now tasks.old.items }
    requires room { HasRoom tasks.old 3 }
    ensures presses { press_tasks symbol.now tasks.new.items ≡ piece_onto encoding (piece_tree symbol.now piece) (press_tasks symbol.now tasks.old.items) }
    ensures weight { tasks_weight symbol.now tasks.new.items + 8 ≤ weight (piece_tree symbol.now piece) + tasks_weight symbol.now tasks.old.items }
    ensures tasks { AreTasks symbol.now tasks.new.items }
    ensures room { TakesRoom tasks.old tasks.new 3 }
{
    match piece {
        Piece::Source { internal, bytes } => {
            if internal {
                then_text(symbol, Text::Counted(b"L", bytes), tasks);
            } else {
                then_text(symbol, Text::Counted(b"", bytes), tasks);
            }
        }
        Piece::Operator(first, second) => then_text(symbol, Text::Pair(first, second), tasks),
        Piece::LiteralOperator(bytes) => then_text(symbol, Text::Counted(b"li", bytes), tasks),
        Piece::Constructor(digit) => then_text(symbol, Text::Pair(b'C', digit), tasks),
        Piece::Destructor(digit) => then_text(symbol, Text::Pair(b'D', digit), tasks),
        // <ctor-dtor-name> ::= CI1 <base class type>: no symbol that the ABI's grammar reads has one.
        Piece::Inheriting { .. } => {}
        // <unqualified-name> ::= DC <source-name>+ E: no such symbol has a structured binding either.
        Piece::Bindings(_) => {}
        Piece::Lambda { parameters, number } => then_lambda(
            symbol,
            parameters,
            Way::Parameters,
            number,
            encoding,
            tasks,
        ),
        // <closure-type-name> ::= Ul <lambda-sig> E [ <nonnegative number> ] _, with parameters of its own
        Piece::GenericLambda { parameters, number } => then_lambda(
            symbol,
            parameters,
            Way::Signature,
            number,
            encoding,
            tasks,
        ),
        Piece::Unnamed(number) => {
            then_text(
                symbol,
                Text::Ordinal(b"Ut", number.saturating_sub(1)),
                tasks,
            );
        }
        Piece::StringLiteral => then_fixed(symbol, b"s", tasks),
        // <operator-name> ::= cv <type>
        Piece::Conversion(ty) => {
            then_tree(symbol, ty, Way::Type, encoding, tasks);
            then_fixed(symbol, b"cv", tasks);
        }
        // <unnamed-type-name> ::= Ue <underlying type> <source-name of the first enumerator>
        Piece::Enumeration { ty, name } => {
            then_text(symbol, Text::Counted(b"", name), tasks);
            then_tree(symbol, ty, Way::Type, encoding, tasks);
            then_fixed(symbol, b"Ue", tasks);
        }
        Piece::Absent => {}
    }
}

/// A piece of std (ABI 5.1.2, `<unscoped-name> ::= St <unqualified-name>`).
pub fn then_in_std(symbol: &Symbol, piece: Piece, encoding: u64, tasks: &mut Vec<Task>)
    requires piece { IsPieceMade symbol.now piece }
    requires tasks { AreTasks symbol.now tasks.old.items }
    requires room { HasRoom tasks.old 4 }
    ensures presses { press_tasks symbol.now tasks.new.items ≡ in_std_onto encoding (piece_tree symbol.now piece) (press_tasks symbol.now tasks.old.items) }
    ensures weight { tasks_weight symbol.now tasks.new.items + 7 ≤ weight (piece_tree symbol.now piece) + tasks_weight symbol.now tasks.old.items }
    ensures tasks { AreTasks symbol.now tasks.new.items }
    ensures room { TakesRoom tasks.old tasks.new 4 }
{
    then_piece(symbol, piece, encoding, tasks);
    then_fixed(symbol, b"St", tasks);
}

/// A piece after its prefix (ABI 5.1.3, `<prefix> ::= <prefix> <unqualified-name>`).
pub fn then_within(symbol: &Symbol, prefix: u32, piece: Piece, encoding: u64, tasks: &mut Vec<Task>)
    requires prefix { prefix < length symbol.now.table.nodes }
    requires piece { IsPieceMade symbol.now piece }
    requires tasks { AreTasks symbol.now tasks.old.items }
    requires room { HasRoom tasks.old 4 }
    ensures presses { press_tasks symbol.now tasks.new.items ≡ within_onto encoding (plain_at symbol.now prefix) (piece_tree symbol.now piece) (press_tasks symbol.now tasks.old.items) }
    ensures weight { tasks_weight symbol.now tasks.new.items + 8 ≤ weight (plain_at symbol.now prefix) + weight (piece_tree symbol.now piece) + tasks_weight symbol.now tasks.old.items }
    ensures tasks { AreTasks symbol.now tasks.new.items }
    ensures room { TakesRoom tasks.old tasks.new 4 }
{
    then_piece(symbol, piece, encoding, tasks);
    then_tree(symbol, prefix, Way::Prefix, encoding, tasks);
}

/// A name within another one (ABI 5.1.3, `<nested-name> ::= N .. <prefix> <unqualified-name> E`).
pub fn then_nested(symbol: &Symbol, prefix: u32, piece: Piece, encoding: u64, tasks: &mut Vec<Task>)
    requires prefix { prefix < length symbol.now.table.nodes }
    requires piece { IsPieceMade symbol.now piece }
    requires tasks { AreTasks symbol.now tasks.old.items }
    requires room { HasRoom tasks.old 6 }
    ensures presses { press_tasks symbol.now tasks.new.items ≡ nested_onto encoding (plain_at symbol.now prefix) (piece_tree symbol.now piece) (press_tasks symbol.now tasks.old.items) }
    ensures weight { tasks_weight symbol.now tasks.new.items + 6 ≤ weight (plain_at symbol.now prefix) + weight (piece_tree symbol.now piece) + tasks_weight symbol.now tasks.old.items }
    ensures tasks { AreTasks symbol.now tasks.new.items }
    ensures room { TakesRoom tasks.old tasks.new 6 }
{
    then_fixed(symbol, b"E", tasks);
    then_within(symbol, prefix, piece, encoding, tasks);
    then_fixed(symbol, b"N", tasks);
}

/// A name and one more tag (ABI 5.1.2, `<unqualified-name> ::= <unqualified-name> <abi-tags>`).
#[tactic(auto, unfolding(crate::specs::Bytes::text_bytes))]
fn then_tag(symbol: &Symbol, name: u32, tag: Span, encoding: u64, tasks: &mut Vec<Task>)
    requires name { name < length symbol.now.table.nodes }
    requires tag { IsWithin tag symbol.now.bytes }
    requires tasks { AreTasks symbol.now tasks.old.items }
    requires room { HasRoom tasks.old 2 }
    ensures presses { press_tasks symbol.now tasks.new.items ≡ tag_onto encoding (plain_at symbol.now name) (bytes_at symbol.now.bytes tag) (press_tasks symbol.now tasks.old.items) }
    ensures weight { tasks_weight symbol.now tasks.new.items ≡ 1 + weight (plain_at symbol.now name) + tasks_weight symbol.now tasks.old.items }
    ensures tasks { AreTasks symbol.now tasks.new.items }
    ensures room { TakesRoom tasks.old tasks.new 2 }
{
    then_text(symbol, Text::Counted(b"B", tag), tasks);
    then_tree(symbol, name, Way::Between, encoding, tasks);
}

/// A name and one more tag, between N and E if the name is within another one.
#[tactic(auto, unfolding(crate::specs::Spelled::tagged_onto))]
pub fn then_tagged(symbol: &Symbol, name: u32, tag: Span, encoding: u64, tasks: &mut Vec<Task>)
    requires table { IsTable (table_of symbol.now) }
    requires name { name < length symbol.now.table.nodes }
    requires tag { IsWithin tag symbol.now.bytes }
    requires tasks { AreTasks symbol.now tasks.old.items }
    requires room { HasRoom tasks.old 4 }
    ensures presses { press_tasks symbol.now tasks.new.items ≡ tagged_onto encoding (plain_at symbol.now name) (bytes_at symbol.now.bytes tag) (press_tasks symbol.now tasks.old.items) }
    ensures weight { tasks_weight symbol.now tasks.new.items ≤ 3 + weight (plain_at symbol.now name) + tasks_weight symbol.now tasks.old.items }
    ensures tasks { AreTasks symbol.now tasks.new.items }
    ensures room { TakesRoom tasks.old tasks.new 4 }
{
    if is_nested(symbol, name) {
        then_fixed(symbol, b"E", tasks);
        then_tag(symbol, name, tag, encoding, tasks);
        then_fixed(symbol, b"N", tasks);
    } else {
        then_tag(symbol, name, tag, encoding, tasks);
    }
}

/// A name between N and E (ABI 5.1.3, `<nested-name>`).
#[tactic(auto, unfolding(crate::specs::Spelled::between_onto, cpp_term::specs::Erased::erase, cpp_tree::specs::Nodes::tree_of, cpp_tree::specs::Nodes::is_again, crate::specs::Weight::weight))]
pub fn then_between(symbol: &Symbol, node: Node, encoding: u64, tasks: &mut Vec<Task>)
    requires own { is_again node ≡ false }
    requires node { IsMade symbol.now node }
    requires tasks { AreTasks symbol.now tasks.old.items }
    requires room { HasRoom tasks.old 5 }
    ensures presses { press_tasks symbol.now tasks.new.items ≡ between_onto encoding (node_tree symbol.now node) (press_tasks symbol.now tasks.old.items) }
    ensures weight { tasks_weight symbol.now tasks.new.items + 4 ≤ weight (node_tree symbol.now node) + tasks_weight symbol.now tasks.old.items }
    ensures tasks { AreTasks symbol.now tasks.new.items }
    ensures room { TakesRoom tasks.old tasks.new 5 }
{
    match node {
        Node::Alone(piece) => then_piece(symbol, piece, encoding, tasks),
        Node::InStd(piece) => then_in_std(symbol, piece, encoding, tasks),
        Node::Within { prefix, piece } => then_within(symbol, prefix, piece, encoding, tasks),
        Node::Instance {
            template,
            arguments,
        } => {
            then_arguments(symbol, arguments, encoding, tasks);
            then_ended(symbol, template, encoding, tasks);
            then_tree(symbol, template, Way::Between, encoding, tasks);
        }
        Node::Tagged { name, tag, .. } => then_tag(symbol, name, tag, encoding, tasks),
        _ => {}
    }
}

/// A name that is a prefix (ABI 5.1.3, `<prefix>`).
#[tactic(auto, unfolding(crate::specs::Spelled::prefix_onto, cpp_term::specs::Erased::erase, cpp_tree::specs::Nodes::tree_of, cpp_tree::specs::Nodes::is_again, crate::specs::Weight::weight))]
pub fn then_prefix(symbol: &Symbol, node: Node, encoding: u64, tasks: &mut Vec<Task>)
    requires own { is_again node ≡ false }
    requires node { IsMade symbol.now node }
    requires tasks { AreTasks symbol.now tasks.old.items }
    requires room { HasRoom tasks.old 5 }
    ensures presses { press_tasks symbol.now tasks.new.items ≡ prefix_onto encoding (node_tree symbol.now node) (press_tasks symbol.now tasks.old.items) }
    ensures weight { tasks_weight symbol.now tasks.new.items + 4 ≤ weight (node_tree symbol.now node) + tasks_weight symbol.now tasks.old.items }
    ensures tasks { AreTasks symbol.now tasks.new.items }
    ensures room { TakesRoom tasks.old tasks.new 5 }
{
    match node {
        Node::Instance {
            template,
            arguments,
        } => {
            then_arguments(symbol, arguments, encoding, tasks);
            then_tree(symbol, template, Way::Prefix, encoding, tasks);
        }
        // <data-member-prefix> ::= <prefix> M
        Node::Holder(name) => {
            then_fixed(symbol, b"M", tasks);
            then_tree(symbol, name, Way::Prefix, encoding, tasks);
        }
        _ => then_between(symbol, node, encoding, tasks),
    }
}

/// Whether a function's name needs an N for the letters of the function's qualifiers and mark.
#[tactic(auto, unfolding(crate::specs::Spelled::has_letters))]
fn has_letters(qualifiers: Qualifiers, mark: Mark) -> bool
    ensures { result ≡ has_letters (qualifiers_of qualifiers) (mark_of mark) }
{
    if qualifiers.restrict || qualifiers.volatile || qualifiers.const_ {
        return true;
    }
    match mark {
        Mark::Any => false,
        Mark::Lvalue => true,
        Mark::Rvalue => true,
        Mark::ExplicitObject => true,
    }
}

/// An encoding's own name without letters (ABI 5.1.2, `<name>`).
#[tactic(auto, unfolding(crate::specs::Spelled::plain_name_onto, cpp_term::specs::Erased::erase, cpp_tree::specs::Nodes::tree_of, cpp_tree::specs::Nodes::is_again, crate::specs::Weight::weight))]
fn then_plain_name(symbol: &Symbol, node: Node, encoding: u64, tasks: &mut Vec<Task>)
    requires table { IsTable (table_of symbol.now) }
    requires own { is_again node ≡ false }
    requires node { IsMade symbol.now node }
    requires tasks { AreTasks symbol.now tasks.old.items }
    requires room { HasRoom tasks.old 6 }
    ensures presses { press_tasks symbol.now tasks.new.items ≡ plain_name_onto encoding (node_tree symbol.now node) (press_tasks symbol.now tasks.old.items) }
    ensures weight { tasks_weight symbol.now tasks.new.items + 2 ≤ weight (node_tree symbol.now node) + tasks_weight symbol.now tasks.old.items }
    ensures tasks { AreTasks symbol.now tasks.new.items }
    ensures room { TakesRoom tasks.old tasks.new 6 }
{
    match node {
        Node::Alone(piece) => then_piece(symbol, piece, encoding, tasks),
        Node::InStd(piece) => then_in_std(symbol, piece, encoding, tasks),
        Node::Within { prefix, piece } => then_nested(symbol, prefix, piece, encoding, tasks),
        Node::Instance {
            template,
            arguments,
        } => {
            then_template(symbol, template, arguments, false, encoding, tasks);
        }
        Node::Tagged { name, tag, .. } => then_tagged(symbol, name, tag, encoding, tasks),
        _ => {}
    }
}

/// A name after an N that may have letters (ABI 5.1.3, `<nested-name> ::= N [<CV-qualifiers>] [<ref-qualifier>] .. E`).
fn then_lettered(symbol: &Symbol, letters: Text, name: u32, encoding: u64, tasks: &mut Vec<Task>)
    requires letters { IsThere symbol.now letters }
    requires name { name < length symbol.now.table.nodes }
    requires tasks { AreTasks symbol.now tasks.old.items }
    requires room { HasRoom tasks.old 3 }
    ensures presses { press_tasks symbol.now tasks.new.items ≡ lettered_onto encoding (text_bytes symbol.now letters) (plain_at symbol.now name) (press_tasks symbol.now tasks.old.items) }
    ensures weight { tasks_weight symbol.now tasks.new.items ≡ 2 + weight (plain_at symbol.now name) + tasks_weight symbol.now tasks.old.items }
    ensures tasks { AreTasks symbol.now tasks.new.items }
    ensures room { TakesRoom tasks.old tasks.new 3 }
{
    then_fixed(symbol, b"E", tasks);
    then_tree(symbol, name, Way::Between, encoding, tasks);
    then_text(symbol, letters, tasks);
}

/// An entity in the scope of an encoding (ABI 5.1.6, `<local-name> ::= Z <encoding> E <name> [<discriminator>]`).
#[tactic(auto, unfolding(crate::specs::Spelled::local_onto, crate::specs::Bytes::text_bytes))]
pub fn then_local(
    symbol: &Symbol,
    around: u32,
    entity: u32,
    discriminator: Option<Span>,
    letters: Text,
    encoding: u64,
    tasks: &mut Vec<Task>,
)
    requires table { IsTable (table_of symbol.now) }
    requires around { around < length symbol.now.table.nodes }
    requires entity { entity < length symbol.now.table.nodes }
    requires discriminator { IsSpan symbol.now.bytes discriminator }
    requires letters { IsThere symbol.now letters }
    requires tasks { AreTasks symbol.now tasks.old.items }
    requires room { HasRoom tasks.old 7 }
    ensures presses { press_tasks symbol.now tasks.new.items ≡ local_onto encoding (plain_at symbol.now around) (plain_at symbol.now entity) (discriminator_of symbol.now.bytes discriminator) (text_bytes symbol.now letters) (press_tasks symbol.now tasks.old.items) }
    ensures weight { tasks_weight symbol.now tasks.new.items + 6 ≤ 12 + weight (plain_at symbol.now around) + weight (plain_at symbol.now entity) + tasks_weight symbol.now tasks.old.items }
    ensures tasks { AreTasks symbol.now tasks.new.items }
    ensures room { TakesRoom tasks.old tasks.new 7 }
{
    then_text(symbol, Text::Discriminator(discriminator), tasks);
    if is_one_piece(symbol, entity) {
        then_tree(symbol, entity, Way::Between, encoding, tasks);
    } else {
        then_lettered(symbol, letters, entity, encoding, tasks);
    }
    then_fixed(symbol, b"E", tasks);
    then_tree(symbol, around, Way::Encoding, encoding, tasks);
    then_fixed(symbol, b"Z", tasks);
}

/// Whether a node is a name that isn't local.
#[tactic(auto, unfolding(cpp_press_laws::specs::Pressing::is_name, cpp_term::specs::Erased::erase, cpp_tree::specs::Nodes::tree_of, cpp_tree::specs::Nodes::is_again))]
pub fn is_name(node: Node) -> bool
    requires own { is_again node ≡ false }
    ensures { (y : ReadSymbol) → result ≡ is_name (node_tree y node) }
{
    match node {
        Node::Alone(_) => true,
        Node::InStd(_) => true,
        Node::Within { .. } => true,
        Node::Instance { .. } => true,
        Node::Tagged { .. } => true,
        _ => false,
    }
}

/// Whether a node's tree is spelled as a prefix, and as no other sort of type.
#[tactic(auto, unfolding(crate::specs::Spelled::is_prefix, cpp_term::specs::Erased::erase, cpp_tree::specs::Nodes::tree_of, cpp_tree::specs::Nodes::is_again))]
pub fn is_prefix(node: Node) -> bool
    requires own { is_again node ≡ false }
    ensures { (y : ReadSymbol) → result ≡ is_prefix (node_tree y node) }
{
    match node {
        Node::Holder(_) => true,
        _ => is_name(node),
    }
}

/// An encoding's own name (ABI 5.1.2, `<name>`).
#[tactic(auto, unfolding(crate::specs::Spelled::name_onto, cpp_term::specs::Erased::erase, cpp_tree::specs::Nodes::tree_of, cpp_tree::specs::Nodes::is_again, crate::specs::Weight::weight, crate::specs::Bytes::text_bytes))]
pub fn then_name(
    symbol: &Symbol,
    name: u32,
    qualifiers: Qualifiers,
    mark: Mark,
    encoding: u64,
    tasks: &mut Vec<Task>,
)
    requires table { IsTable (table_of symbol.now) }
    requires name { name < length symbol.now.table.nodes }
    requires tasks { AreTasks symbol.now tasks.old.items }
    requires room { HasRoom tasks.old 7 }
    ensures presses { press_tasks symbol.now tasks.new.items ≡ name_onto encoding (qualifiers_of qualifiers) (mark_of mark) (plain_at symbol.now name) (press_tasks symbol.now tasks.old.items) }
    ensures weight { tasks_weight symbol.now tasks.new.items + 2 ≤ 4 + weight (plain_at symbol.now name) + tasks_weight symbol.now tasks.old.items }
    ensures tasks { AreTasks symbol.now tasks.new.items }
    ensures room { TakesRoom tasks.old tasks.new 7 }
{
    let node = stored(symbol, name);
    if let Node::Local {
        encoding: around,
        entity,
        discriminator,
    } = node
    {
        then_local(
            symbol,
            around,
            entity,
            discriminator,
            Text::Letters(qualifiers, mark),
            encoding,
            tasks,
        );
    } else if is_name(node) && has_letters(qualifiers, mark) {
        then_lettered(
            symbol,
            Text::Letters(qualifiers, mark),
            name,
            encoding,
            tasks,
        );
    } else {
        then_plain_name(symbol, node, encoding, tasks);
    }
}

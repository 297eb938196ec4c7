//! A C++ symbol's nodes, from its rows.
#![tactic(auto)]

pub mod begin;
pub mod between;
pub mod calls;
pub mod candidates;
pub mod closing;
pub mod counting;
pub mod dispatch;
pub mod expression_meaning;
pub mod expressions;
pub mod families;
pub mod finish;
pub mod holders;
pub mod language;
pub mod linked;
mod literals;
pub mod meaning;
pub mod name_meaning;
pub mod numbers;
pub mod parameters;
pub mod part;
pub mod rescoping;
mod row_steps;
pub mod settling;
pub mod shapes;
pub mod signatures;
pub mod steps;
mod surroundings;
mod tables;
pub mod type_meaning;
pub mod values;
pub mod wide_language;

ghost use Rattle.std.specs.Prelude.{◌≤◌, ◌*◌, length};
ghost use Rattle.sym_shape.specs.Tree.{Tree, IsTree, spell};
ghost use Rattle.sym_shape.specs.declared.rule.Sym.TheVariants.{Kind};
ghost use Rattle.sym_link.specs.Owing.{cost};
ghost use Rattle.cpp_grammar.specs.Table.{wide};
ghost use Rattle.cpp_link.specs.CandidatesFew.{CandidatesAreFew};
ghost use Rattle.cpp_link.specs.Owed.{owes};

/// The productions of a symbol's tree make at most two nodes for each byte.
pub fn nodes_are_few()
    ensures { (tree : Tree) → IsTree wide (Kind 0) tree → cost owes tree ≤ 2 * length (spell tree) }
{}

/// Each candidate of a symbol that is read was made as a node, in addition to the four at the front of each table: a symbol has at least
/// four more nodes than candidates.
pub fn candidates_are_few()
    ensures { CandidatesAreFew }
{}

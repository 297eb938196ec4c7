//! C++ symbols read into trees in which a template parameter carries the argument that it denotes. A linker keeps such trees,
//! since how long a part's packs are, and how it is shown, depend only on the part. The laws here say that they denote the
//! trees of `cpp_grammar`, where a parameter is a number.
#![tactic(auto)]

ghost use Rattle.std.specs.Prelude.{◌≡◌, ℕ, List, Bool, false, cond, Option, None, Some, Ok, Err};
ghost use Rattle.sym_core.specs.declared.refusal.Refusal.{Refusal};
ghost use Rattle.sym_print.specs.declared.detail.Detail.{Detail};
ghost use Rattle.sym_shape.specs.Tree.{Tree, IsTree};
ghost use Rattle.sym_shape.specs.declared.rule.Sym.TheVariants.{Kind};
ghost use Rattle.sym_link.specs.Reading.{Found};
ghost use Rattle.sym_link.specs.Unfold.{unfold_tree};
ghost use Rattle.cpp_grammar.specs.Table.{wide};
ghost use Rattle.cpp_grammar.specs.Answer.{shown, root_item, answer_within};
ghost use Rattle.cpp_grammar.specs.Items.{Item, is_none_of};
ghost use Rattle.cpp_grammar.specs.Parts as leaf_;
ghost use Rattle.cpp_grammar.specs.Rescoping.{unfold_wide};
ghost use Rattle.cpp_grammar.specs.Unfolding as unfolding_;
ghost use Rattle.cpp_term.specs.Parts as part_;
ghost use Rattle.cpp_term.specs.Rescoping as wide_;
ghost use Rattle.cpp_term.specs.Unfolding as unfolded_;
ghost use Rattle.cpp_term.specs.Annotated.{noted_item, noted_parts, noted_tree};
ghost use Rattle.cpp_term.specs.Answer.{noted_shown, noted_answer};
ghost use Rattle.cpp_term.specs.Erased.{erase, CarriesArguments};
ghost use Rattle.cpp_term.specs.Items as items;
ghost use Rattle.cpp_term.specs.Reargued.{reargued, given_alone, bare, head_from, class_from, is_empty_with};
ghost use Rattle.cpp_term.specs.Scope.{is_open, free_in, length_if_pack, pack_length};
ghost use Rattle.cpp_term.specs.ReadAs.{IsReadAs};
ghost use Rattle.cpp_term.specs.Term.{Term, symbol, parameter};
ghost use Rattle.cpp_term.specs.Values.{Value, State};

/// An item whose parameters carry their arguments shows what the item without them shows: the same texts, and the same items with their
/// arguments, in each detail and form. So texts and costs are the same.
pub fn parts_are_annotated()
    ensures { (detail : Detail) (item : Item) → part_.parts detail (noted_item item) ≡ noted_parts (leaf_.parts detail item) }
{}

/// A well shaped symbol read with arguments in its parameters yields the tree of the symbol (ABI 5.1.8, 5.1.10), each free
/// parameter with its argument; or it's refused for the same reason, at the same place. The same holds in the wide grammar.
pub fn trees_are_annotated()
    ensures abi { (shape : Tree) → IsTree wide (Kind 0) shape → unfolded_.unfold_cpp shape ≡ noted_tree (unfolding_.unfold_cpp shape) }
    ensures wide { (shape : Tree) → IsTree wide (Kind 0) shape → wide_.unfold_wide shape ≡ noted_tree (unfold_wide shape) }
{}

/// Without its arguments, the tree that a symbol is read into is the tree of the symbol. The tree of the symbol determines the arguments:
/// two symbols with the same tree have the same arguments. The tree that is read is an encoding with what follows it.
pub fn arguments_are_erased()
    ensures tree { (shape : Tree) (t : Term) → IsTree wide (Kind 0) shape → unfolded_.unfold_cpp shape ≡ Ok t → unfolding_.unfold_cpp shape ≡ Ok (erase t) }
    ensures carries { (shape : Tree) (t : Term) → IsTree wide (Kind 0) shape → unfolded_.unfold_cpp shape ≡ Ok t → CarriesArguments t }
    ensures whole { (shape : Tree) (t : Term) → IsTree wide (Kind 0) shape → unfolded_.unfold_cpp shape ≡ Ok t → (encoding : Term) × (suffix : List ℕ) × (t ≡ symbol encoding suffix) }
    ensures refused { (shape : Tree) (refusal : Refusal) → IsTree wide (Kind 0) shape → unfolded_.unfold_cpp shape ≡ Err refusal → unfolding_.unfold_cpp shape ≡ Err refusal }
{}

/// A well shaped symbol, read part by part, is one tree. Without its arguments it is the tree of the symbol.
pub fn symbols_are_read_as_trees()
    ensures wide { (shape : Tree) (read : Found (List Value) State) → IsTree wide (Kind 0) shape → unfold_tree wide_.cpp_wide unfolded_.first_around 0 shape unfolded_.first_state ≡ Ok read → IsReadAs (unfold_wide shape) read.value }
    ensures abi { (shape : Tree) (read : Found (List Value) State) → IsTree wide (Kind 0) shape → unfold_tree unfolded_.cpp unfolded_.first_around 0 shape unfolded_.first_state ≡ Ok read → IsReadAs (unfolding_.unfold_cpp shape) read.value }
{}

/// A tree whose parameters carry their arguments has the text and the cost of the tree without them, in either detail.
pub fn texts_are_the_same()
    ensures { (detail : Detail) (t : Term) → CarriesArguments t → noted_shown detail t ≡ shown detail (root_item (erase t)) }
{}

/// A well shaped symbol has the same answer as its tree with arguments in the parameters: the text if that costs at most the limit, in
/// either detail, or the refusal with its place.
pub fn answers_are_the_same()
    ensures wide { (detail : Detail) (limit : ℕ) (shape : Tree) → IsTree wide (Kind 0) shape → noted_answer detail limit (wide_.unfold_wide shape) ≡ answer_within detail limit (unfold_wide shape) }
    ensures abi { (detail : Detail) (limit : ℕ) (shape : Tree) → IsTree wide (Kind 0) shape → noted_answer detail limit (unfolded_.unfold_cpp shape) ≡ answer_within detail limit (unfolding_.unfold_cpp shape) }
{}

/// A tree with another argument in each of its free parameters, or with the elements of a list in
/// them. If no other argument is given, the result is the tree itself; if two are given, the outer
/// one counts. If no parameter is free, nothing changes; the tree without arguments never changes.
/// The length of the result's packs, its head if it is a type, and whether it prints nothing are as
/// in the tree, or follow from the argument.
pub fn arguments_are_replaced()
    ensures none { (t : Term) → reargued None t ≡ t }
    ensures twice { (c : Option Term) (a t : Term) → reargued (Some a) (reargued c t) ≡ reargued (Some a) t }
    ensures closed { (c : Option Term) (t : Term) → is_open t ≡ false → reargued c t ≡ t }
    ensures open { (c : Option Term) (t : Term) → is_open (reargued c t) ≡ is_open t }
    ensures free { (c : Option Term) (t : Term) → free_in (reargued c t) ≡ free_in t }
    ensures erased { (c : Option Term) (t : Term) → erase (reargued c t) ≡ erase t }
    ensures packs { (a t : Term) → pack_length (reargued (Some a) t) ≡ cond (bare t) (length_if_pack a) None }
    ensures head { (a t : Term) → items.class_of (reargued (Some a) t) ≡ class_from (head_from t) (items.class_of t) (items.class_of (parameter 0 (given_alone a (free_in t)))) }
    ensures empty { (context : items.Context) (a t : Term) → items.is_empty context (reargued (Some a) t) ≡ is_empty_with (is_none_of (length_if_pack a)) t }
{}

// Lambdas: types in functions, and components of nested names.

ghost use Rattle.std.specs.Prelude.{◌≡◌, ◌+◌, ◌∷◌, ◌++◌, [], ℕ, List, length, Option, codes};
ghost use Rattle.std.specs.Option.{OnSome, IfSome};
ghost use Rattle.cpp_grammar.specs.Term.{Term};
ghost use Rattle.cpp_direct.specs.Names.{IsReadable};
ghost use Rattle.cpp_direct.specs.declared.open.Step.TheVariants as steps;
ghost use Rattle.cpp_direct.specs.Holes.{StandsAt};
ghost use Rattle.cpp_direct.specs.HolesOfLocals.{IsLambdaDigit, IsPieceAt, lambda_digits, lambda_number};
ghost use Rattle.cpp_direct.specs.Prints.{PrintsPiece};
ghost use Rattle.cpp_direct.specs.WriterInvariant.{IsWriting};
ghost use Rattle.cpp_direct.specs.MidStepOfLocals.{AwaitsTypeName, IsLambdaOpened, IsLambdaParameterRead, IsLambdaRead};
ghost use Rattle.cpp_direct.specs.Written.{Reads};
ghost use Rattle.cpp_direct.specs.Symbol.{detail_by, symbol_by};

use crate::direct::Direct;
use crate::enclosing::LONGEST_GONE_OVER;
use crate::grammar::Grammar;
use crate::open::{Holder, Nest, Open, Step};
use crate::tokens::{are_numbers_short, byte_at};

impl Direct {
    /// Reads a lambda without parameters, one of the first nine of a function.
    // <closure-type-name> ::= Ul <lambda-sig> E [<nonnegative number>] _
    pub(crate) fn lambda<G: Grammar>(&mut self, s: &[u8]) -> Option<()>
        requires letter { StandsAt s.now self.old.at (85 ∷ []) }
        ensures { OnSome result ((p : Term) × (n : List ℕ) × IsPieceAt (symbol_by G.IS_WIDE G.IS_BARE G.IS_BRIEF s.now) self.old.at p self.new.at × PrintsPiece (detail_by G.IS_BARE G.IS_BRIEF) p n × Reads self.old self.new n) }
    {
        let second = byte_at(s, self.at.checked_add(1)?);
        let third = byte_at(s, self.at.checked_add(2)?);
        let fourth = byte_at(s, self.at.checked_add(3)?);
        if second != b'l' || third != b'v' || fourth != b'E' {
            return None;
        }
        self.at = self.at.checked_add(4)?;
        self.push(b"{lambda()#")?;
        self.lambda_number(s)
    }

    /// Reads the number of a lambda, one of the first nine, and writes the number and the text after it.
    // <closure-type-name> ::= Ul <lambda-sig> E [<nonnegative number>] _
    fn lambda_number(&mut self, s: &[u8]) -> Option<()>
        ensures { OnSome result ((number : Option ℕ) × IsLambdaDigit number × StandsAt s.now self.old.at (lambda_digits number ++ 95 ∷ [])
            × (self.new.at ≡ self.old.at + length (lambda_digits number ++ 95 ∷ []))
            × Reads self.old self.new (lambda_number number ++ codes "}")) }
    {
        let digit = byte_at(s, self.at);
        self.at = self.at.checked_add(1)?;
        if digit == b'_' {
            return self.push(b"1}");
        }
        if digit < b'0' || b'7' < digit {
            return None;
        }
        if byte_at(s, self.at) != b'_' {
            return None;
        }
        self.at = self.at.checked_add(1)?;
        self.push_pair(digit + 2, b'}')
    }

    /// Begins a lambda that has parameters, as a type in a function.
    // <local-name> ::= Z <function encoding> E <entity name> [<discriminator>]
    pub(crate) fn begin_lambda<G: Grammar>(&mut self, s: &[u8], from: u32) -> Option<Step>
        requires awaits { AwaitsTypeName (symbol_by G.IS_WIDE G.IS_BARE G.IS_BRIEF s.now) self.old from }
        requires letter { StandsAt s.now self.old.at (85 ∷ []) }
        ensures { IfSome result (IsWriting (symbol_by G.IS_WIDE G.IS_BARE G.IS_BRIEF s.now) self.new) }
    {
        self.open_lambda(s, from, Holder::Function)?;
        Some(Step::Type)
    }

    /// Begins a lambda that has parameters, as a component of a nested name.
    // <unqualified-name> ::= <unnamed-type-name>
    #[inline(never)]
    pub(crate) fn begin_component<G: Grammar>(&mut self, s: &[u8]) -> Option<Step>
        requires letter { StandsAt s.now self.old.at (85 ∷ []) }
        requires writing { IsWriting (symbol_by G.IS_WIDE G.IS_BARE G.IS_BRIEF s.now) self.old steps.Component }
        ensures { IfSome result (IsWriting (symbol_by G.IS_WIDE G.IS_BARE G.IS_BRIEF s.now) self.new) }
    {
        if self.nest.is_dependent {
            return None;
        }
        let purpose = self.nest.purpose;
        self.open_lambda(s, self.nest.from, Holder::Name { purpose })?;
        Some(Step::Type)
    }

    /// Opens the parameters of a lambda, in a symbol that isn't long, since each lambda scans the symbol once more.
    // <closure-type-name> ::= Ul <lambda-sig> E [<nonnegative number>] _
    pub(crate) fn open_lambda(&mut self, s: &[u8], from: u32, holder: Holder) -> Option<()>
        requires { StandsAt s.now self.old.at (85 ∷ []) }
        ensures { OnSome result (IsLambdaOpened s.now self.old self.new from holder) }
    {
        self.at = self.at.checked_add(1)?;
        if byte_at(s, self.at) != b'l' {
            return None;
        }
        // the lambda's number comes after the parameters, so all numbers of the symbol are tested
        // here
        if s.len() > LONGEST_GONE_OVER || !are_numbers_short(s) {
            return None;
        }
        self.at = self.at.checked_add(1)?;
        self.push(b"::{lambda(")?;
        self.waiting.push(Open::Lambda { from, holder })
    }

    /// A parameter of a lambda is read: another one follows, or the lambda's end.
    // <lambda-sig> ::= <parameter type>+
    pub(crate) fn lambda_parameter<G: Grammar>(
        &mut self,
        s: &[u8],
        from: u32,
        holder: Holder,
    ) -> Option<Step>
        requires fits { IsReadable s.now }
        requires read { IsLambdaParameterRead (symbol_by G.IS_WIDE G.IS_BARE G.IS_BRIEF s.now) self.old from holder }
        ensures { IfSome result (IsWriting (symbol_by G.IS_WIDE G.IS_BARE G.IS_BRIEF s.now) self.new) }
    {
        if byte_at(s, self.at) != b'E' {
            self.push_pair(b',', b' ')?;
            return Some(Step::Type);
        }
        // a lone void isn't a parameter
        if self.text.as_slice().ends_with(b"(void") {
            return None;
        }
        self.at = self.at.checked_add(1)?;
        self.push_pair(b')', b'#')?;
        self.lambda_number(s)?;
        let _open = self.waiting.pop();
        self.lambda_ended::<G>(s, from, holder)
    }

    /// A lambda is read. A lambda in a function is a type. A nested name continues after a lambda
    /// in it, but a constructor that is named after a lambda is given up. If the lambda has a
    /// member function, the function's name comes next.
    // <local-name> ::= Z <function encoding> E <entity name> [<discriminator>]
    // <prefix> ::= <prefix> <unqualified-name>
    fn lambda_ended<G: Grammar>(&mut self, s: &[u8], from: u32, holder: Holder) -> Option<Step>
        requires fits { IsReadable s.now }
        requires read { IsLambdaRead (symbol_by G.IS_WIDE G.IS_BARE G.IS_BRIEF s.now) self.old from holder }
        ensures { IfSome result (IsWriting (symbol_by G.IS_WIDE G.IS_BARE G.IS_BRIEF s.now) self.new) }
    {
        match holder {
            Holder::Function => {
                self.discriminator(s)?;
                self.add_candidate(from, false, false)?;
                Some(Step::Value {
                    is_reference: false,
                    is_dependent: false,
                })
            }
            Holder::Name { purpose } => {
                self.nest = Nest {
                    from,
                    class_from: from,
                    class_to: from,
                    purpose,
                    is_listed: false,
                    has_class: false,
                    is_instance: false,
                    is_dependent: false,
                };
                Some(Step::Tail)
            }
            Holder::Member { mark } => self.member_function::<G>(s, mark),
        }
    }
}

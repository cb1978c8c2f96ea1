//! Literals, operands and sums.
ghost use Rattle.std.specs.Prelude.{◌≡◌, pos, neg_ℤ};
ghost use Rattle.sql_text.specs.Sums as spec;
ghost use Rattle.sql_text.specs.Steps.{Gives};

use crate::keyword::Keyword;
use crate::lexeme::{Lexeme, Sign};
use crate::list::ListOf;
use crate::statement::{Literal, Operand, Sum, Term};
use crate::step::StepFault;
use std::alloc::Global;

/// What has been read of a sum.
#[derive(Drop)]
pub enum Summing {
    /// Nothing.
    First,
    /// A `-` directly before a number.
    FirstNumber,
    /// A whole sum, which may go on.
    Ready { sum: Sum },
    /// A sum and an operator.
    Next { sum: Sum, minus: bool },
    /// A sum, an operator, and a `-` directly before a number.
    NextNumber { sum: Sum, minus: bool },
}

/// Whether a sum goes on with a lexeme, or ended before it.
#[derive(Drop)]
pub enum SumStep {
    Goes { summing: Summing },
    Ends { sum: Sum },
}

impl Lexeme {
    /// Whether it is a `-`.
    fn is_minus(&self) -> bool
        ensures { result ≡ spec.is_minus self.now }
    {
        match self {
            Lexeme::Minus { .. } => true,
            _ => false,
        }
    }

    /// Whether it is a `-` directly before a number.
    pub fn is_tight(&self) -> bool
        ensures { result ≡ spec.is_tight self.now }
    {
        match self {
            Lexeme::Minus { is_tight } => *is_tight,
            _ => false,
        }
    }

    fn is_name(&self) -> bool
        ensures { result ≡ spec.is_name self.now }
    {
        match self {
            Lexeme::Name(_) => true,
            _ => false,
        }
    }

    fn positive(&self) -> Option<i128>
        ensures { result ≡ spec.positive_in self.now }
    {
        match self {
            Lexeme::Number(number) => Some(number.positive()),
            _ => None,
        }
    }

    /// The number behind a `-`.
    pub fn negative(&self) -> Result<i128, StepFault>
        ensures { Gives result (spec.negative_in self.now) }
    {
        match self {
            Lexeme::Number(number) => Ok(number.negative()),
            _ => Err(StepFault::Unexpected),
        }
    }

    /// A literal that has no `-`.
    #[tactic(auto, unfolding(crate::specs::Sums::literal_in))]
    pub fn literal(&self) -> Result<Literal, StepFault>
        ensures { Gives result (spec.literal_in self.now) }
    {
        if self.is_word(Keyword::Null) {
            return Ok(Literal::Null);
        }
        match self.positive() {
            Some(number) => Ok(Literal::Int(number)),
            None => {
                let text = self.text()?;
                Ok(Literal::Text(text))
            }
        }
    }

    /// An operand that has no `-`.
    #[tactic(auto, unfolding(crate::specs::Sums::operand_in))]
    fn operand(&self) -> Result<Operand, StepFault>
        ensures { Gives result (spec.operand_in self.now) }
    {
        if self.is_name() {
            let column = self.column()?;
            Ok(Operand::Column(column))
        } else {
            let literal = self.literal()?;
            Ok(Operand::Literal(literal))
        }
    }

    #[tactic(auto, unfolding(crate::specs::Sums::negative_operand))]
    fn negative_operand(&self) -> Result<Operand, StepFault>
        ensures { Gives result (spec.negative_operand self.now) }
    {
        let number = self.negative()?;
        Ok(Operand::Literal(Literal::Int(number)))
    }
}

fn goes(summing: Summing) -> SumStep
    ensures { result ≡ spec.goes summing }
{
    SumStep::Goes { summing }
}

fn first(alloc: Global, operand: Operand) -> SumStep
    ensures { result ≡ spec.first operand }
{
    goes(Summing::Ready {
        sum: Sum {
            first: operand,
            rest: ListOf::new(alloc),
        },
    })
}

fn more(sum: Sum, minus: bool, operand: Operand) -> Result<SumStep, StepFault>
    ensures { Gives result (spec.more sum minus operand) }
{
    let Sum { first, mut rest } = sum;
    rest.push(Term { minus, operand })?;
    Ok(goes(Summing::Ready {
        sum: Sum { first, rest },
    }))
}

fn after_sum(sum: Sum, lexeme: &Lexeme) -> SumStep
    ensures { result ≡ spec.after_sum sum lexeme.now }
{
    if lexeme.is_sign(Sign::Plus) {
        goes(Summing::Next { sum, minus: false })
    } else if lexeme.is_minus() {
        goes(Summing::Next { sum, minus: true })
    } else {
        SumStep::Ends { sum }
    }
}

impl Summing {
    #[tactic(auto, unfolding(crate::specs::Sums::sum_step))]
    pub fn step(self, alloc: Global, lexeme: &Lexeme) -> Result<SumStep, StepFault>
        ensures { Gives result (spec.sum_step self lexeme.now) }
    {
        match self {
            Summing::First => {
                if lexeme.is_tight() {
                    return Ok(goes(Summing::FirstNumber));
                }
                let operand = lexeme.operand()?;
                Ok(first(alloc, operand))
            }
            Summing::FirstNumber => {
                let operand = lexeme.negative_operand()?;
                Ok(first(alloc, operand))
            }
            Summing::Ready { sum } => Ok(after_sum(sum, lexeme)),
            Summing::Next { sum, minus } => {
                if lexeme.is_tight() {
                    return Ok(goes(Summing::NextNumber { sum, minus }));
                }
                let operand = lexeme.operand()?;
                more(sum, minus, operand)
            }
            Summing::NextNumber { sum, minus } => {
                let operand = lexeme.negative_operand()?;
                more(sum, minus, operand)
            }
        }
    }
}

//! What a text does.
ghost use Rattle.std.specs.Prelude.{◌≡◌, IfOk, IfErr, Ok, Err};
ghost use Rattle.sql_effect.specs.Effects.{AreTables};
ghost use Rattle.sql_effect.specs.Texts.{IsEffect, Tells};

use crate::effects::effect_of;
use crate::shape::{Effect, EffectFault, EngineFacts, Sizes, View};
use sql_text::{ParseFault, Statement, parse};
use std::alloc::Global;

/// What a text does to a view, or why it is refused. It serves tests alone, as `effect_of` does.
///
/// `Refused` comes with `StatementTooLong` for a text of more than 65,536 bytes, with `Syntax` for one that spells no statement, and
/// else exactly where the statement that it spells is refused, unless memory runs out. `Memory` comes for want of memory.
pub fn text_effect(
    alloc: Global,
    shelf: &[EngineFacts],
    view: &View,
    sizes: Sizes,
    text: &[u8],
) -> Result<Effect, EffectFault>
    requires { AreTables view.now.tables }
    ensures ok { IfOk result (λ it. IsEffect shelf.now view.now sizes text.now (Ok it)) }
    ensures err { IfErr result (λ fault.
        Tells (IsEffect shelf.now view.now sizes text.now) fault) }
{
    match parse(alloc, text) {
        Ok(asks) => effect_of(alloc, shelf, view, sizes, &asks),
        Err(ParseFault::Refused(refusal)) => Err(EffectFault::Refused(refusal)),
        Err(ParseFault::Memory) => Err(EffectFault::Memory),
    }
}

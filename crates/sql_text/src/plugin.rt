//! Statements on plugins.
ghost use Rattle.std.specs.Prelude.{◌≡◌};
ghost use Rattle.sql_text.specs.Plugins as spec;
ghost use Rattle.sql_text.specs.Steps.{Gives};

use crate::keyword::Keyword;
use crate::lexeme::Lexeme;
use crate::reading::Reading;
use crate::statement::Statement;
use crate::step::StepFault;
use sql_value::Name;

/// The word, the name or the text that is due.
#[derive(Drop)]
pub enum Plugging {
    InstallPlugin,
    InstallName,
    InstallSoname { name: Name },
    InstallFile { name: Name },
    UninstallPlugin,
    UninstallName,
}

fn after_word(lexeme: &Lexeme, word: Keyword, plugging: Plugging) -> Result<Reading, StepFault>
    ensures { Gives result (spec.after_word lexeme.now word plugging) }
{
    if lexeme.is_word(word) {
        Ok(Reading::Plugging(plugging))
    } else {
        Err(StepFault::Unexpected)
    }
}

impl Plugging {
    #[tactic(auto, unfolding(crate::specs::Plugins::next))]
    pub fn next(self, lexeme: &Lexeme) -> Result<Reading, StepFault>
        ensures { Gives result (spec.next self lexeme.now) }
    {
        match self {
            Plugging::InstallPlugin => {
                after_word(lexeme, Keyword::Plugin, Plugging::InstallName)
            }
            Plugging::InstallName => {
                let name = lexeme.engine()?;
                Ok(Reading::Plugging(Plugging::InstallSoname { name }))
            }
            Plugging::InstallSoname { name } => {
                after_word(lexeme, Keyword::Soname, Plugging::InstallFile { name })
            }
            Plugging::InstallFile { name } => {
                let soname = lexeme.text()?;
                Ok(Reading::Whole(Statement::Install { name, soname }))
            }
            Plugging::UninstallPlugin => {
                after_word(lexeme, Keyword::Plugin, Plugging::UninstallName)
            }
            Plugging::UninstallName => {
                let name = lexeme.engine()?;
                Ok(Reading::Whole(Statement::Uninstall { name }))
            }
        }
    }
}

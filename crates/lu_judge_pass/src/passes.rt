//! One pass over the lines of a trace, whatever the law.

ghost use Rattle.std.specs.Prelude.{◌≡◌, List, [], ◌∷◌, reverse, None, IfOk, OnOk, IsTrue, ◌↔◌, length};
ghost use Rattle.lu_trace.specs.declared.entries.Line.{Line};
ghost use Rattle.lu_spec_laws.specs.Words.Pasts.{Past};
ghost use Rattle.lu_spec_laws.specs.Holds.{Holds};
ghost use Rattle.lu_judge_pass.specs.Firsts.{About, HoldsBelow, IsFirst};

use lu_base::Memory;
use lu_trace::Line;

/// Tables of the lines so far, from which a law is decided at the next line.
pub trait Judge<'a> {
    /// What the law speaks of beside the lines around each line. No line changes it.
    ghost about: { Self → About };

    /// What is known to hold at each line of the trace: what earlier laws say there.
    ghost given: { About → Past → Line → List Line → Type 0 };

    /// The tables show this past, at each line of which the law holds.
    ghost shows: { Self → Past → Type 0 };

    /// The law.
    ghost law: { About → Past → Line → List Line → Type 0 };

    /// Whether the law holds at the next line, before these later ones. It answers want of memory alone.
    fn allows(&self, line: &'a Line, later: &'a [Line]) -> Result<bool, Memory>
        ensures decided { IfOk result (λ holds. (past : Past) → shows self.now past
            → given (about self.now) past line.now later.now
            → IsTrue holds ↔ law (about self.now) past line.now later.now) };

    /// Takes in the next line, at which the law holds. After want of memory nothing is known of the tables.
    fn step(&mut self, line: &'a Line) -> Result<(), Memory>
        ensures shows { OnOk result ((past : Past) (later : List Line) → shows self.old past
            → given (about self.old) past line.now later → law (about self.old) past line.now later
            → shows self.new (line.now ∷ past)) }
        ensures about { OnOk result (about self.new ≡ about self.old) };
}

/// The place, from 0, of the first line that breaks the law; none where no line does.
fn first_place<'a, J: Judge<'a> + Drop>(
    judge: J,
    lines: &'a [Line],
) -> Result<Option<usize>, Memory>
    requires shows { J.shows judge [] }
    requires given { HoldsBelow (J.given (J.about judge)) lines.now (length lines.now) }
    ensures { IfOk result (IsFirst (J.law (J.about judge)) lines.now) }
{
    let mut tables = judge;
    let mut place = 0;
    while place < lines.len() {
        let line = &lines[place];
        if !tables.allows(line, &lines[place + 1..])? {
            return Ok(Some(place));
        }
        tables.step(line)?;
        place += 1;
    }
    Ok(None)
}

/// The place, from 0, of the first line that breaks the judge's law; none exactly where the law holds of the whole
/// trace. The judge has seen no line. It answers want of memory alone.
pub fn first_broken<'a, J: Judge<'a> + Drop>(
    judge: J,
    lines: &'a [Line],
) -> Result<Option<usize>, Memory>
    requires shows { J.shows judge [] }
    requires given { Holds (J.given (J.about judge)) (reverse lines.now) }
    ensures first { IfOk result (IsFirst (J.law (J.about judge)) lines.now) }
    ensures none { IfOk result (λ place. (place ≡ None)
        ↔ Holds (J.law (J.about judge)) (reverse lines.now)) }
{
    first_place(judge, lines)
}

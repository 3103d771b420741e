//! Statements counted in text order.
ghost use Rattle.std.specs.Prelude.{◌≡◌, Bool};
ghost use Rattle.std.specs.Fn.{FnReturnsAt};
ghost use Rattle.model.specs.declared.program.Line.{Line};
ghost use Rattle.model.specs.Models.{contents};
ghost use Rattle.model.specs.Lines.{statements, is_update, is_delete, Picks, nth_line};

use super::model::Model;
use super::program::Line;

/// The place of the n-th of the lines that are picked, counted from 1.
fn nth_line<P: Fn(&Line) -> bool>(lines: &[Line], picked: P, n: usize) -> Option<usize>
    requires { P.IsAlwaysCallable picked }
    ensures { (p : Line → Bool) → Picks (FnReturnsAt P.Fn picked) p → result ≡ nth_line p lines.now n }
{
    lines
        .iter()
        .enumerate()
        .filter(|(_, line)| picked(*line))
        .map(|(place, _)| place)
        .nth(n.checked_sub(1)?)
}

impl Model {
    /// How many statements it has; IF and WHILE count beside those that they hold.
    pub fn statement_count(&self) -> usize
        ensures { result ≡ statements (contents self.now).lines }
    {
        self.lines
            .iter()
            .filter(|line| !matches!(**line, Line::End))
            .count()
    }

    /// The line of the n-th UPDATE statement in text order, counted from 1.
    pub fn update_line(&self, n: usize) -> Option<usize>
        ensures { result ≡ nth_line is_update (contents self.now).lines n }
    {
        nth_line(&self.lines, |line| matches!(*line, Line::Update { .. }), n)
    }

    /// The line of the n-th DELETE statement in text order, counted from 1.
    pub fn delete_line(&self, n: usize) -> Option<usize>
        ensures { result ≡ nth_line is_delete (contents self.now).lines n }
    {
        nth_line(&self.lines, |line| matches!(*line, Line::Delete { .. }), n)
    }
}

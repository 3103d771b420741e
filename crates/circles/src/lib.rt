//! Which table is the first that leads back to itself by one or more references.
#![tactic(auto)]

ghost use Rattle.std.specs.Prelude.{◌≡◌, ℕ, ◌<◌, ◌≤◌, true, false, Some, None, MatchBool, slice_set, slice_index_or};
ghost use Rattle.circles.specs.Circles.{OnCircle, NoCircle, First, Answers};
ghost use Rattle.circles.specs.Ways.{IsTable, Leads, Follows};
ghost use Rattle.circles.specs.Visits.{Marked, Waits, is_reached, is_taken, reached_of, taken_of};

/// The most tables that a schema has.
pub const TABLES: usize = 8;

/// The numbers from 0 to the last table's.
const NUMBERS: usize = 9;

/// What is known of a table on the way from a start.
#[derive(Clone, Copy, PartialEq, Eq)]
enum Mark {
    /// No link was seen that leads to it.
    Unseen,
    /// It is reached, and its links are still to be followed.
    Reached,
    /// Its links were followed, and no link was seen that leads to it: the start, until one does.
    Begun,
    /// It is reached, and its links were followed.
    Taken,
}

impl Mark {
    /// Whether a link was seen that leads to the table.
    fn is_reached(self) -> bool
        ensures { result ≡ is_reached self }
    {
        matches!(self, Mark::Reached | Mark::Taken)
    }

    /// The mark of a table that is taken up.
    fn taken_up(self) -> Mark
        ensures { (is_reached result ≡ is_reached self) × (is_taken result ≡ true) }
    {
        match self {
            Mark::Unseen | Mark::Begun => Mark::Begun,
            Mark::Reached | Mark::Taken => Mark::Taken,
        }
    }

    /// The mark of a table to which a link leads.
    fn led_to(self) -> Mark
        ensures { (is_reached result ≡ true) × (is_taken result ≡ is_taken self) }
    {
        match self {
            Mark::Unseen | Mark::Reached => Mark::Reached,
            Mark::Begun | Mark::Taken => Mark::Taken,
        }
    }
}

/// A mark for each number, of which 0 is no table's.
type Marks = [Mark; NUMBERS];

/// A reference of one table to another; tables are counted from 1.
#[derive(Clone, Copy, Drop)]
pub struct Link {
    pub from: usize,
    pub to: usize,
}

/// The count of a schema's tables, and the links between them.
#[derive(Clone, Copy)]
struct Schema<'a> {
    tables: usize,
    links: &'a [Link],
}

impl<'a> Schema<'a> {
    /// Whether a number is a table's.
    fn has(&self, number: usize) -> bool
        ensures { MatchBool result (IsTable self.now.tables number) (IsTable self.now.tables number → ⊥) }
    {
        (1..=self.tables.min(TABLES)).contains(&number)
    }

    /// Whether a link leads on from a table, and both its ends are tables.
    fn follows(&self, table: usize, link: Link) -> bool
        ensures { MatchBool result (Follows self.now.tables table link) (Follows self.now.tables table link → ⊥) }
    {
        link.from == table && self.has(link.from) && self.has(link.to)
    }

    /// Takes up a table, which was not taken up before: marks each table that one link leads to from it.
    fn take_up(&self, table: usize, marks: &mut Marks)
        requires { (table < 9) × (slice_index_or (taken_of marks.old) table false ≡ false) }
        ensures marks { Marked self.now.tables self.now.links.now table (reached_of marks.old) (reached_of marks.new) }
        ensures takes { taken_of marks.new ≡ slice_set (taken_of marks.old) table true }
    {
        marks[table] = marks[table].taken_up();
        for link in self.links {
            if self.follows(table, *link) {
                marks[link.to] = marks[link.to].led_to();
            }
        }
    }

    /// Whether one or more links lead from a table back to it. No table is taken up twice.
    fn leads_back(&self, start: usize) -> bool
        requires { start ≤ 8 }
        ensures { MatchBool result (Leads self.now.tables self.now.links.now start start) (Leads self.now.tables self.now.links.now start start → ⊥) }
    {
        let mut marks = [Mark::Unseen; NUMBERS];
        self.take_up(start, &mut marks);
        while let Some(table) = waiting(&marks) {
            self.take_up(table, &mut marks);
        }
        marks[start].is_reached()
    }
}

/// The first table still to be visited: reached, and not yet taken up.
fn waiting(marks: &Marks) -> Option<usize>
    ensures { Waits (reached_of marks.now) (taken_of marks.now) result }
{
    marks.iter().position(|mark| *mark == Mark::Reached)
}

/// The first table that leads back to itself by one or more links, if one does.
/// A link with an end that is no table is part of no way; of more than eight tables only the first eight count.
pub fn first_on_circle(tables: usize, links: &[Link]) -> Option<usize>
    ensures answer { Answers tables links.now result }
    ensures named { (t : ℕ) → First tables links.now t → result ≡ Some t }
    ensures none { NoCircle tables links.now → result ≡ None }
    ensures itself { (t : ℕ) → result ≡ Some t → OnCircle tables links.now t }
{
    let schema = Schema { tables, links };
    let last = tables.min(TABLES);
    (1..=last).find(|table| schema.leads_back(*table))
}

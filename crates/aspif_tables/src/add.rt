// One statement into the tables.
ghost use Rattle.std.specs.Prelude.{◌≡◌, ℕ, ◌+◌, ◌≤◌, length};
ghost use Rattle.asp.specs.Tables.{literals_at};
ghost use Rattle.aspif_fields.specs.SeenFields.{Ending};
ghost use Rattle.aspif_lines.specs.Seen.{bytes_at};
ghost use Rattle.aspif_tables.specs.Lists.{Within, RulesSound, SymbolsSound, Descending, AddedRule, AddedMinimise, AddedSymbol};

use super::table::{Counts, Stored, extra_places, insert_level};
use asp::symbols::SymbolRow;
use aspif_fields::refusal::Refusal;
use aspif_fields::token::Rest;
use aspif_lines::minimise::{MinimiseLine, read_minimise};
use aspif_lines::rule::{RuleLine, read_rule};
use aspif_lines::symbol::{SymbolLine, read_symbol};

// Kept: `Within` stands in contracts and is no part of `Counts`, since a line may pass a limit, which is judged after it.
impl Stored {
    // A rule. The text ends at `end` with its line.
    pub fn add_rule(&mut self, rest: &mut Rest, end: usize) -> Result<(), Refusal>
        requires sound { RulesSound self.old.pool self.old.rules self.old.counts.rules self.old.counts.used self.old.counts.filled }
        requires within { Within self.old.counts }
        ensures { AddedRule self.old self.new end rest.old.bytes.now result }
    {
        let n = self.counts;
        let RuleLine { row, top } = read_rule(rest, &mut self.pool, n.filled, n.atoms)?;
        self.rules[n.rules] = row;
        let places = usize::from(row.heads) + usize::from(row.literals);
        let whole = places + extra_places(row);
        let used = n.used + places;
        let filled = n.filled + whole;
        self.counts = Counts {
            rules: n.rules + 1,
            used,
            filled,
            text: end,
            atoms: top,
            ..n
        };
        Ok(())
    }

    // A minimise line: its entries and its priority.
    pub fn add_minimise(&mut self, rest: &mut Rest, end: usize) -> Result<(), Refusal>
        requires within { Within self.old.counts }
        requires down { Descending (literals_at self.old.levels 0 self.old.counts.levels) }
        ensures { AddedMinimise self.old self.new end rest.old.bytes.now result }
    {
        let n = self.counts;
        let line = read_minimise(rest, &mut self.entries, n.entries, n.atoms)?;
        let MinimiseLine {
            priority,
            count,
            top,
        } = line;
        let levels = insert_level(&mut self.levels, n.levels, priority);
        self.counts = Counts {
            entries: n.entries + count,
            levels,
            text: end,
            atoms: top,
            ..n
        };
        Ok(())
    }

    // A symbol of the line s, which stands in the text from its length on.
    pub fn add_symbol(&mut self, s: &[u8], rest: &mut Rest, end: usize) -> Result<(), Refusal>
        requires sound { SymbolsSound self.old.text self.old.conditions self.old.symbols self.old.counts.symbols self.old.counts.conditions self.old.counts.names self.old.counts.text }
        requires within { Within self.old.counts }
        requires ends { (end ≡ self.old.counts.text + length s.now + 1) × (end ≤ 65537) }
        requires stored { (a m : ℕ) → a + m ≤ length s.now → bytes_at self.old.text (self.old.counts.text + a) m ≡ bytes_at s.now a m }
        requires part { Ending rest.old.bytes.now s.now }
        ensures { AddedSymbol self.old self.new end rest.old.bytes.now result }
    {
        let n = self.counts;
        let before = s.len() - rest.bytes.len();
        let line = read_symbol(rest, &mut self.conditions, n.conditions, n.atoms)?;
        let SymbolLine {
            name,
            length,
            shown,
            top,
        } = line;
        let first = n.text + (before + name);
        // Kept: the casts, since a place of the text or of a condition is below 65,536: `try_from` would want a refusal for a number that cannot be.
        self.symbols[n.symbols] = SymbolRow {
            name: first as u16,
            length: length as u16,
            condition: n.conditions as u16,
            literals: shown as u16,
        };
        self.counts = Counts {
            symbols: n.symbols + 1,
            conditions: n.conditions + shown,
            names: n.names + length,
            text: end,
            atoms: top,
            ..n
        };
        Ok(())
    }
}

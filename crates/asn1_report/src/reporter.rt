//! The answers to lines.
ghost use Rattle.std.specs.Prelude.{◌≡◌, OnOk, option_map};
ghost use Rattle.asn1_clash.specs.Views.{component_view, tree_view};
ghost use Rattle.asn1_report.specs.Report.{State, start, refusal, answer_of, answer_to, answer_to_end};
ghost use Rattle.asn1_report.specs.Statements.{names_tree, names_bounds, begins_table, adds_component, ends_table};

use crate::statement::{Statement, StatementParser};
use crate::table::Table;
use crate::table_kind::TableKind;
use crate::texts::{write_refusal, write_verdict};
use crate::verdict::TreeVerdict;
use asn1_clash::{FlatComponent, FlatTree, TreeSummary};
use asn1_ranges::Bounded;
use std::alloc::{AllocError, Global};

/// Answers one line after another.
#[derive(Drop)]
pub(crate) struct Reporter {
    alloc: Global,
    parser: StatementParser,
    // How many lines there were.
    number: u64,
    // The table that is open.
    table: Option<Table>,
    // Whether each line was understood.
    all_understood: bool,
    // The text of the last answer.
    text: Vec<u8>,
}

impl Reporter {
    ghost use Rattle.asn1_report.specs.Flattened.{Gives, HasAnswered, flat_state};
    ghost use Rattle.asn1_report.specs.Views.{state_view, statement_view};

    /// Before the first line.
    pub(crate) fn new(alloc: Global) -> Reporter
        ensures state { state_view result ≡ start }
    {
        Reporter {
            alloc,
            parser: StatementParser::new(alloc),
            number: 0,
            table: None,
            all_understood: true,
            text: Vec::new(alloc),
        }
    }

    /// The text of the last answer.
    pub(crate) fn text(&self) -> &[u8]
        ensures text { result.now ≡ self.now.text.items }
    {
        self.text.as_slice()
    }

    /// Whether each line was understood, and each table had its `end`.
    pub(crate) fn all_understood(&self) -> bool
        ensures understood { result ≡ self.now.all_understood }
    {
        self.all_understood
    }

    /// Answers a line, as far as it is looked at.
    pub(crate) fn answer(&mut self, line: Option<&[u8]>) -> Result<(), AllocError>
        ensures answered { (s : State) → state_view self.old ≡ flat_state s →
            OnOk result
            (HasAnswered (answer_to s (option_map (λ bytes. bytes.now) line.entry)) self.new) }
    {
        self.text.clear();
        self.number = self.number.saturating_add(1);
        let in_table = self.table.is_some();
        match self.parser.parse(line, in_table)? {
            Some(statement) => self.answer_statement(statement),
            None => self.refuse_line(),
        }
    }

    /// Adds the answer to the end of the input to the last answer.
    pub(crate) fn answer_end(&mut self) -> Result<(), AllocError>
        ensures given { OnOk result
            (Gives (answer_to_end (state_view self.old)) self.old self.new) }
    {
        if let Some(table) = &self.table {
            self.all_understood = false;
            table.write_not_checked(&mut self.text)?;
        }
        Ok(())
    }

    // Adds the answer to what a line says.
    fn answer_statement(&mut self, statement: Statement<'_>) -> Result<(), AllocError>
        ensures given { OnOk result
            (Gives (answer_of (state_view self.old) (statement_view statement.entry))
            self.old self.new) }
    {
        match statement {
            Statement::SaysNothing => Ok(()),
            Statement::NamesTree { name, tree } => self.answer_tree(name, tree),
            Statement::NamesBounds {
                name,
                first,
                second,
            } => self.answer_bounds(name, first, second),
            Statement::BeginsTable { kind, name } => self.begin_table(kind, name),
            Statement::AddsComponent(component) => self.add_component(component),
            Statement::EndsTable => self.end_table(),
        }
    }

    // Adds the verdict on a tree, whose room the next tree takes.
    fn answer_tree(&mut self, name: &[u8], mut tree: FlatTree) -> Result<(), AllocError>
        ensures given { OnOk result
            (Gives (answer_of (state_view self.old) (names_tree name.now (tree_view tree)))
            self.old self.new) }
    {
        let verdict = TreeVerdict(TreeSummary::of(&mut tree.tags));
        write_verdict("tree", name, verdict, &mut self.text)?;
        self.parser.reuse(tree);
        Ok(())
    }

    // Adds what two bounds have in common.
    fn answer_bounds(
        &mut self,
        name: &[u8],
        first: Bounded<i128>,
        second: Bounded<i128>,
    ) -> Result<(), AllocError>
        ensures given { OnOk result
            (Gives (answer_of (state_view self.old) (names_bounds name.now first second))
            self.old self.new) }
    {
        match first.intersect(second) {
            Some(bound) => write_verdict("bound", name, bound, &mut self.text),
            None => write_verdict("bound", name, "nothing in common", &mut self.text),
        }
    }

    // Begins a table.
    fn begin_table(&mut self, kind: TableKind, name: &[u8]) -> Result<(), AllocError>
        ensures given { OnOk result
            (Gives (answer_of (state_view self.old) (begins_table kind name.now))
            self.old self.new) }
    {
        self.table = Some(Table::new(self.alloc, kind, name)?);
        Ok(())
    }

    // Adds a component to the table that is open, unless it is one too many.
    fn add_component(&mut self, component: FlatComponent) -> Result<(), AllocError>
        ensures given { OnOk result
            (Gives (answer_of (state_view self.old) (adds_component (component_view component)))
            self.old self.new) }
    {
        match &mut self.table {
            Some(table) if table.has_room() => table.push(component),
            _ => self.refuse_line(),
        }
    }

    // Ends the table that is open, and adds the verdict on it.
    fn end_table(&mut self) -> Result<(), AllocError>
        ensures given { OnOk result
            (Gives (answer_of (state_view self.old) ends_table) self.old self.new) }
    {
        match self.table.take() {
            Some(table) => table.write_end(self.alloc, &mut self.text),
            None => self.refuse_line(),
        }
    }

    // Adds that the line is not understood, which the table that is open keeps in mind.
    fn refuse_line(&mut self) -> Result<(), AllocError>
        ensures given { OnOk result (Gives (refusal (state_view self.old)) self.old self.new) }
    {
        self.all_understood = false;
        if let Some(table) = &mut self.table {
            table.refuse_line();
        }
        write_refusal(self.number, &mut self.text)
    }
}

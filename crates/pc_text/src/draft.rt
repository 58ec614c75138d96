//! Reading statements one after the other.

ghost use Rattle.std.specs.Prelude.{◌≡◌, ◌==◌, ◌&&◌, ◌||◌, not, [], ◌∷◌, ◌<◌, codes, length, slice_index, Some, None, IfOk, Result};
ghost use Rattle.pc_file.specs.Limits.{IsFile};
ghost use Rattle.std.specs.List.{list_any};
ghost use Rattle.std.specs.Option.{option_or};
ghost use Rattle.pc_names.specs.Spelling.{same_spelling};
ghost use Rattle.pc_text.specs.Arguments.{bytes};
ghost use Rattle.pc_file.specs.declared.rule.Rule.{Rule};
ghost use Rattle.pc_file.specs.PrintedSize.{with_line};
ghost use Rattle.pc_rules.specs.declared.kind.Kind.{Kind};
ghost use Rattle.pc_text.specs.Given.{argument, catalogue_of, contents_given, give, give_rule, give_statement, give_value, variables_given};
ghost use Rattle.pc_text.specs.Orders.{fault_of_rule, first_standing, orders_within, print_fault, rule_fault, statement_fault, values_in};
ghost use Rattle.pc_text.specs.FirstFault.{line_fault, give_line};
ghost use Rattle.pc_names.specs.LineWords.{words};
ghost use Rattle.pc_rules.specs.declared.kind.Kind.TheVariants.{Header};
ghost use Rattle.pc_rules.specs.RuleText.{rule_of};
ghost use Rattle.pc_text.specs.Told.{Tells};
ghost use Rattle.pc_text.specs.Variables.{value_faults};
ghost use Rattle.pc_text.specs.declared.keyword.Keyword.TheVariants as keyword;

use crate::arguments::{argument, only_free_name, only_name, value_of};
use crate::keyword::Keyword;
use crate::line_words::arguments_of;
use crate::statement_fault::StatementFault;
use crate::variables::Variables;
use pc_base::{NoMemory, Sequence};
use pc_file::{
    File, MOST_COSTS, MOST_RULES, Rule, Value, cost_line_size, end_line_size, header_line_size,
    rule_line_size, value_line_size, variable_line_size, with_line,
};
use pc_names::{Name, cut_word};
use pc_rules::{Kind, read_rule};
use std::alloc::Global;

/// What the statements so far give, and the bytes of their printed lines with the line feeds.
#[derive(Debug, Drop)]
pub struct Draft {
    last: Option<Keyword>,
    costs: Sequence<Name>,
    variables: Variables,
    rules: Sequence<Rule>,
    printed: usize,
}

impl Draft {
    ghost use Rattle.pc_text.specs.Given.{nothing_given};
    ghost use Rattle.pc_text.specs.Draft.{given_of};

    /// Before the first statement.
    pub fn new(alloc: Global) -> Draft
        ensures { given_of result ≡ nothing_given }
    {
        Draft {
            last: None,
            costs: Sequence::new(alloc),
            variables: Variables::new(alloc),
            rules: Sequence::new(alloc),
            printed: 0,
        }
    }

    /// What the statements give with the next line of the text.
    #[tactic(auto, unfolding(crate::specs::FirstFault::line_fault, crate::specs::FirstFault::give_line))]
    pub fn take_line(self, alloc: Global, line: &[u8]) -> Result<Draft, StatementFault>
        ensures { Tells result (line_fault (given_of self) line.now) (λ draft. given_of draft ≡ give_line (given_of self) line.now) }
    {
        let (word, text) = cut_word(line);
        if is_skipped(word) {
            return Ok(self);
        }
        self.take_statement(alloc, Keyword::read(word), text)
    }

    /// The file that all statements give, where they keep all limits of files.
    pub fn into_file(self) -> Result<File, NoMemory>
        requires { IsFile (contents_given (given_of self)) }
        ensures { IfOk result (λ file. file ≡ contents_given (given_of self)) }
    {
        let (variables, names) = self.variables.close()?.into_parts();
        Ok(File::with_names(self.costs, variables, self.rules, names))
    }

    /// The keyword of the last statement.
    pub fn last(&self) -> Option<Keyword>
        ensures { result ≡ (given_of self.now).last }
    {
        self.last
    }

    /// A line that isn't skipped, by its keyword and the bytes after that.
    fn take_statement(
        self,
        alloc: Global,
        word: Option<Keyword>,
        text: &[u8],
    ) -> Result<Draft, StatementFault>
        ensures { let given = given_of self in let rule = rule_of (catalogue_of (variables_given given)) text.now in
            Tells result (statement_fault given word (words text.now) rule) (λ draft. given_of draft ≡ give_statement given word (words text.now) rule) }
    {
        let arguments = arguments_of(alloc, word, text)?;
        self.take_words(alloc, word, &arguments, text)
    }

    /// A line that isn't skipped, by its keyword, its arguments and the bytes after the keyword.
    fn take_words(
        self,
        alloc: Global,
        word: Option<Keyword>,
        arguments: &[&[u8]],
        text: &[u8],
    ) -> Result<Draft, StatementFault>
        ensures { let given = given_of self in let rule = rule_of (catalogue_of (variables_given given)) text.now in
            Tells result (statement_fault given word (bytes arguments.now) rule) (λ draft. given_of draft ≡ give_statement given word (bytes arguments.now) rule) }
    {
        match (self.last, word) {
            (None, Some(Keyword::Product)) => self.take_header(arguments),
            (None, _) => Err(StatementFault::Fault(Kind::Header)),
            (Some(last), Some(next)) if last.may_precede(Some(next)) => {
                self.take_allowed(alloc, next, arguments, text)
            }
            (Some(last), _) => Err(StatementFault::Fault(last.expected())),
        }
    }

    /// A first line that begins with `product`.
    fn take_header(mut self, arguments: &[&[u8]]) -> Result<Draft, StatementFault>
        ensures { Tells result (option_or (first_standing ((not ((length (bytes arguments.now) == 1) && same_spelling (argument (bytes arguments.now) 0) (codes "1")), Header) ∷ []))
            (print_fault (give (given_of self) (Some Keyword.Product) (bytes arguments.now)).printed))
            (λ draft. given_of draft ≡ give (given_of self) (Some Keyword.Product) (bytes arguments.now)) }
    {
        if arguments.len() != 1 || argument(arguments, 0) != b"1".as_slice() {
            return Err(StatementFault::Fault(Kind::Header));
        }
        self.last = Some(Keyword::Product);
        self.print(header_line_size())
    }

    /// A statement that may come here.
    fn take_allowed(
        mut self,
        alloc: Global,
        word: Keyword,
        arguments: &[&[u8]],
        text: &[u8],
    ) -> Result<Draft, StatementFault>
        ensures { let given = given_of self in let rule = rule_of (catalogue_of (variables_given given)) text.now in
            Tells result (option_or (first_standing (orders_within given (Some word) (bytes arguments.now)))
            (option_or (fault_of_rule (Some word) rule) (print_fault (give_statement given (Some word) (bytes arguments.now) rule).printed)))
            (λ draft. given_of draft ≡ give_statement given (Some word) (bytes arguments.now) rule) }
    {
        match word {
            Keyword::Product => {
                self.last = Some(Keyword::Product);
                self.print(header_line_size())
            }
            Keyword::Cost => self.take_cost(arguments),
            Keyword::Variable => self.take_variable(alloc, arguments),
            Keyword::Value => self.take_value(arguments),
            Keyword::Rule => self.take_rule(alloc, text),
            Keyword::End => self.take_end(arguments),
        }
    }

    /// A line `cost NAME`.
    fn take_cost(mut self, arguments: &[&[u8]]) -> Result<Draft, StatementFault>
        ensures { Tells result (option_or (first_standing (orders_within (given_of self) (Some Keyword.Cost) (bytes arguments.now)))
            (print_fault (give (given_of self) (Some Keyword.Cost) (bytes arguments.now)).printed))
            (λ draft. given_of draft ≡ give (given_of self) (Some Keyword.Cost) (bytes arguments.now)) }
    {
        let name = self.new_cost(arguments)?;
        self.costs.push(name)?;
        self.last = Some(Keyword::Cost);
        self.print(cost_line_size(&name))
    }

    /// The name of one cost more.
    fn new_cost(&self, arguments: &[&[u8]]) -> Result<Name, StatementFault>
        ensures { Tells result (first_standing (orders_within (given_of self.now) (Some Keyword.Cost) (bytes arguments.now))) (λ name. name ≡ argument (bytes arguments.now) 0) }
    {
        let name = only_name(arguments).ok_or(StatementFault::Fault(Kind::Cost))?;
        if self.costs.len() >= MOST_COSTS {
            return Err(StatementFault::Fault(Kind::Size));
        }
        if self.has_cost(&name) {
            return Err(StatementFault::Fault(Kind::Repeat));
        }
        Ok(name)
    }

    /// A line `variable NAME`.
    fn take_variable(mut self, alloc: Global, arguments: &[&[u8]]) -> Result<Draft, StatementFault>
        ensures { Tells result (option_or (first_standing (orders_within (given_of self) (Some Keyword.Variable) (bytes arguments.now)))
            (print_fault (give (given_of self) (Some Keyword.Variable) (bytes arguments.now)).printed))
            (λ draft. given_of draft ≡ give (given_of self) (Some Keyword.Variable) (bytes arguments.now)) }
    {
        let name = only_free_name(arguments).ok_or(StatementFault::Fault(Kind::Variable))?;
        self.variables = self.variables.begin(alloc, name)?;
        self.last = Some(Keyword::Variable);
        self.print(variable_line_size(&name))
    }

    /// A line `value NAME NUMBER` or `value NAME NUMBER NUMBER`.
    fn take_value(self, arguments: &[&[u8]]) -> Result<Draft, StatementFault>
        ensures { Tells result (option_or (first_standing (orders_within (given_of self) (Some Keyword.Value) (bytes arguments.now)))
            (print_fault (give (given_of self) (Some Keyword.Value) (bytes arguments.now)).printed))
            (λ draft. given_of draft ≡ give (given_of self) (Some Keyword.Value) (bytes arguments.now)) }
    {
        let value = value_of(arguments, self.costs.len())?;
        self.with_value(value)
    }

    /// One value more of the open variable.
    fn with_value(mut self, value: Value) -> Result<Draft, StatementFault>
        ensures { Tells result (option_or (first_standing (value_faults (values_in self.variables.open_variable) value.name)) (print_fault (give_value (given_of self) value).printed))
            (λ draft. given_of draft ≡ give_value (given_of self) value) }
    {
        let size = value_line_size(self.costs.len(), &value);
        self.variables = self.variables.with_value(value)?;
        self.last = Some(Keyword::Value);
        self.print(size)
    }

    /// A line `end`.
    fn take_end(mut self, arguments: &[&[u8]]) -> Result<Draft, StatementFault>
        ensures { Tells result (option_or (first_standing (orders_within (given_of self) (Some Keyword.End) (bytes arguments.now)))
            (print_fault (give (given_of self) (Some Keyword.End) (bytes arguments.now)).printed))
            (λ draft. given_of draft ≡ give (given_of self) (Some Keyword.End) (bytes arguments.now)) }
    {
        if !arguments.is_empty() {
            return Err(StatementFault::Fault(Kind::End));
        }
        self.variables = self.variables.close()?;
        self.last = Some(Keyword::End);
        self.print(end_line_size())
    }

    /// A line that begins with `rule`.
    fn take_rule(mut self, alloc: Global, text: &[u8]) -> Result<Draft, StatementFault>
        ensures { let rule = rule_of (catalogue_of (variables_given (given_of self))) text.now in
            Tells result (option_or (first_standing (orders_within (given_of self) (Some Keyword.Rule) []))
            (option_or (rule_fault rule) (print_fault (give_rule (given_of self) rule).printed)))
            (λ draft. given_of draft ≡ give_rule (given_of self) rule) }
    {
        if self.rules.len() >= MOST_RULES {
            return Err(StatementFault::Fault(Kind::Size));
        }
        self.variables = self.variables.close()?;
        let rule = read_rule(alloc, self.variables.names(), text)?;
        let size = rule_line_size(self.variables.closed(), &rule);
        self.rules.push(rule)?;
        self.last = Some(Keyword::Rule);
        self.print(size)
    }

    /// Counts the printed line of a statement, of so many bytes.
    fn print(mut self, size: usize) -> Result<Draft, StatementFault>
        ensures { Tells result (print_fault (with_line self.printed size)) (λ draft. given_of draft ≡ record (given_of self) { printed = with_line self.printed size }) }
    {
        self.printed = with_line(self.printed, size).ok_or(StatementFault::Fault(Kind::Size))?;
        Ok(self)
    }

    fn has_cost(&self, name: &Name) -> bool
        ensures { result ≡ list_any (same_spelling name.now) self.now.costs }
    {
        self.costs.as_slice().iter().any(|cost| name == cost)
    }
}

/// Whether the first word of a line makes it one that is skipped.
fn is_skipped(word: &[u8]) -> bool
    ensures { result ≡ ((length word.now == 0) || (slice_index word.now 0 == 35)) }
{
    word.is_empty() || word[0] == b'#'
}

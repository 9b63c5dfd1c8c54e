// Filters in prefix form, read from their last word to their first.
use crate::fault::Fault;
use crate::types::scalar_of;
use crate::words::{brackets_of, operator_of};
use std::alloc::Global;
use vortex_array::{BetweenOptions, Boxed, CompareOperator, Filter, Name, Operand};

/// A filter in a box.
pub struct Kept {
    filter: Boxed<Filter>,
}

impl Drop for Kept {
    fn drop(self) {
        let Kept { filter: _filter } = self;
    }
}

impl Kept {
    /// The filter.
    pub fn get(&self) -> &Filter {
        self.filter.get()
    }

    fn into_box(self) -> Boxed<Filter> {
        let Kept { filter } = self;
        filter
    }
}

// What a filter's word begins.
#[derive(Clone, Copy)]
enum Form {
    // The truth of an operand, or whether it is null.
    Single,
    Comparison,
    Bounds,
    Likeness,
    Not,
    Pair,
    // No filter.
    Other,
}

fn form_of(word: &str) -> Form {
    match word {
        "truth" | "is_null" => Form::Single,
        "cmp" => Form::Comparison,
        "between" => Form::Bounds,
        "like" => Form::Likeness,
        "not" => Form::Not,
        "and" | "or" => Form::Pair,
        _ => Form::Other,
    }
}

// What stands behind the words that are still to be read: the first of each kind is the last of its list. An operator and
// brackets wait for the word before them.
struct Stack {
    operands: Vec<Operand>,
    filters: Vec<Kept>,
    operator: Option<CompareOperator>,
    brackets: Option<BetweenOptions>,
}

impl Drop for Stack {
    fn drop(self) {
        let Stack {
            operands: _operands,
            filters: _filters,
            operator: _operator,
            brackets: _brackets,
        } = self;
    }
}

/// The filter of words as `and not cmp > x i32:1 is_null y`.
pub fn filter_of(alloc: Global, words: &str) -> Result<Kept, Fault> {
    let mut stack = Stack {
        operands: Vec::new(alloc),
        filters: Vec::new(alloc),
        operator: None,
        brackets: None,
    };
    for word in words.rsplit(' ') {
        stack.read(alloc, word)?;
    }
    stack.whole()
}

impl Stack {
    fn read(&mut self, alloc: Global, word: &str) -> Result<(), Fault> {
        match form_of(word) {
            Form::Single => self.read_single(alloc, word),
            Form::Comparison => self.read_comparison(alloc),
            Form::Bounds => self.read_bounds(alloc),
            Form::Likeness => self.read_likeness(alloc),
            Form::Not => self.read_not(alloc),
            Form::Pair => self.read_pair(alloc, word),
            Form::Other => self.read_other(alloc, word),
        }
    }

    // Reads an operator or brackets, which the word before them takes, or else an operand.
    fn read_other(&mut self, alloc: Global, word: &str) -> Result<(), Fault> {
        if let Ok(operator) = operator_of(word) {
            self.operator = Some(operator);
            return Ok(());
        }
        if let Ok(brackets) = brackets_of(word) {
            self.brackets = Some(brackets);
            return Ok(());
        }
        self.read_operand(alloc, word)
    }

    fn push(&mut self, alloc: Global, filter: Filter) -> Result<(), Fault> {
        let filter = Boxed::new(alloc, filter)?;
        self.filters.push(Kept { filter })?;
        Ok(())
    }

    fn operand(&mut self) -> Result<Operand, Fault> {
        self.operands.pop().ok_or(Fault::NoCase)
    }

    fn filter(&mut self) -> Result<Boxed<Filter>, Fault> {
        match self.filters.pop() {
            Some(filter) => Ok(filter.into_box()),
            None => Err(Fault::NoCase),
        }
    }

    fn read_operand(&mut self, alloc: Global, word: &str) -> Result<(), Fault> {
        self.operands.push(operand_of(alloc, word)?)?;
        Ok(())
    }

    fn read_single(&mut self, alloc: Global, word: &str) -> Result<(), Fault> {
        let x = self.operand()?;
        if word == "truth" {
            self.push(alloc, Filter::Truth(x))
        } else {
            self.push(alloc, Filter::IsNull(x))
        }
    }

    fn read_comparison(&mut self, alloc: Global) -> Result<(), Fault> {
        let operator = self.operator.take().ok_or(Fault::NoCase)?;
        let x = self.operand()?;
        let y = self.operand()?;
        self.push(alloc, Filter::Compare(operator, x, y))
    }

    fn read_bounds(&mut self, alloc: Global) -> Result<(), Fault> {
        let brackets = self.brackets.take().ok_or(Fault::NoCase)?;
        let x = self.operand()?;
        let lower = self.operand()?;
        let upper = self.operand()?;
        self.push(alloc, Filter::Between(brackets, x, lower, upper))
    }

    fn read_likeness(&mut self, alloc: Global) -> Result<(), Fault> {
        let x = self.operand()?;
        let pattern = self.operand()?;
        self.push(alloc, Filter::Like(x, pattern))
    }

    fn read_not(&mut self, alloc: Global) -> Result<(), Fault> {
        let f = self.filter()?;
        self.push(alloc, Filter::Not(f))
    }

    fn read_pair(&mut self, alloc: Global, word: &str) -> Result<(), Fault> {
        let f = self.filter()?;
        let g = self.filter()?;
        if word == "and" {
            self.push(alloc, Filter::And(f, g))
        } else {
            self.push(alloc, Filter::Or(f, g))
        }
    }

    // The one filter that was read, with nothing left over.
    fn whole(&mut self) -> Result<Kept, Fault> {
        let filter = self.filters.pop().ok_or(Fault::NoCase)?;
        if self.operands.is_empty() && self.filters.is_empty() {
            Ok(filter)
        } else {
            Err(Fault::NoCase)
        }
    }
}

// A constant as `i32:7`, or else a column's name.
fn operand_of(alloc: Global, word: &str) -> Result<Operand, Fault> {
    if word.contains(':') {
        Ok(Operand::Constant(scalar_of(alloc, word)?))
    } else {
        Ok(Operand::Column(Name::from_str(alloc, word)?))
    }
}

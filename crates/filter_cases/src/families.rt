// Which family a case belongs to.
use crate::fault::Fault;
use crate::{filters, predicates, values};
use std::alloc::Global;

/// The answer of a case, at the end of `out`.
pub fn answer(alloc: Global, case: &str, out: &mut String) -> Result<(), Fault> {
    let (family, words) = case.split_once(' ').ok_or(Fault::NoCase)?;
    match family {
        "like" | "like_to" | "compare_to" | "between_to" => {
            predicates::answer(alloc, family, words, out)
        }
        "check" | "copy" => filters::answer(alloc, family, words, out),
        _ => values::answer(alloc, family, words, out),
    }
}

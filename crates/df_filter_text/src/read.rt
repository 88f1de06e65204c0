//! Reading filters.
ghost use Rattle.std.specs.Prelude.{◌≡◌, ◌≤◌, List, [], Err, IfErr, IfOk, length, drop};
ghost use Rattle.df_filter.specs.declared.clause.Clause.{Clause};
ghost use Rattle.df_filter_text.specs.code.Answer.{HasFifth, IsReadWhole, IsRefused, IsRefusedBy};
ghost use Rattle.df_filter_text.specs.Filter.{filter_text};
ghost use Rattle.df_filter_text.specs.Fits.{IsFilter};
ghost use Rattle.df_filter_text.specs.ReadFilter.{filter_at};
ghost use Rattle.df_value_text.specs.code.Answer.{Gives};
ghost use Rattle.df_filter_text.specs.declared.refused.FilterTextRefused.TheVariants as refused;

use crate::FilterTextRefused;
use crate::clause_reader::clauses_at;
use df_filter::Filter;
use df_value_text::{Fault, byte_stands};
use std::alloc::Global;

/// The filter of which these bytes are the whole text.
pub fn read_filter(alloc: Global, bytes: &[u8]) -> Result<Filter, FilterTextRefused>
    ensures found { IfOk result (λ filter. IsFilter filter × (bytes.now ≡ filter_text filter)) }
    ensures only { (filter : List Clause) → IsFilter filter → bytes.now ≡ filter_text filter →
        IsReadWhole filter result }
    ensures none { bytes.now ≡ [] → result ≡ Err refused.NoClause }
    ensures many { HasFifth bytes.now → IsRefused refused.TooManyClauses result }
    ensures refused { IfErr result (IsRefusedBy bytes.now) }
{
    if bytes.is_empty() {
        return Err(FilterTextRefused::NoClause);
    }
    let (filter, end) = filter_at(alloc, bytes, 0)?;
    if byte_stands(bytes, end, b'&') {
        return Err(FilterTextRefused::TooManyClauses);
    }
    if end < bytes.len() {
        return Err(FilterTextRefused::Syntax { offset: end });
    }
    Ok(filter)
}

/// The longest filter at the place, and the place behind it.
pub fn filter_at(alloc: Global, bytes: &[u8], at: usize) -> Result<(Filter, usize), Fault>
    requires { at ≤ length bytes.now }
    ensures { Gives (λ f. f) bytes.now result (filter_at (drop at bytes.now)) }
{
    let (clauses, end) = clauses_at(alloc, bytes, at)?;
    match Filter::new(clauses) {
        Ok(filter) => Ok((filter, end)),
        Err(_) => unreachable!(),
    }
}

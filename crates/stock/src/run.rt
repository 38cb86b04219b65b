// A run of calls.
use crate::call::Call;
use valuation::terms::Terms;

// What a stock is opened with, and all the calls that it has then.
// Basis and terms are two fields, as a stock has them: a valuation is lent the basis, and takes the terms by value.
#[derive(Drop)]
pub struct Run<'a, B> {
    pub basis: B,
    pub terms: Terms,
    pub calls: &'a [Call<'a>],
}

//! Tables of small cases of forms and rows.
#![tactic(auto)]

#[cfg(test)]
mod instances;
#[cfg(test)]
mod rows;
#[cfg(test)]
mod terms;

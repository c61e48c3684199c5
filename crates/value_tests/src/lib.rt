//! Texts of values at resources, with what each takes, or why it isn't given.
#![tactic(auto)]

#[cfg(test)]
mod bounds;
#[cfg(test)]
mod calls;
#[cfg(test)]
mod contexts;
#[cfg(test)]
mod deep;
#[cfg(test)]
mod giving;
#[cfg(test)]
mod instances;
#[cfg(test)]
mod rows;
#[cfg(test)]
mod values;

//! What the slots hold.

#[derive(Drop)]
pub enum Item<L, P> {
    Load(L),
    Parcel(P),
}

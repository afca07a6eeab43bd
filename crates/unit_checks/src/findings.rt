// What stands against a unit.
use cs_base::{Cause, Place, Text};

/// The place and the cause, the token there, and where that comes from, if it is from elsewhere.
#[derive(Drop)]
pub(crate) struct Finding {
    pub place: Place,
    pub cause: Cause,
    pub token: Option<Text>,
    pub from: Option<Place>,
}

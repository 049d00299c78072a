//! Messages borrowed from the received bytes. Nothing is copied and no memory is allocated until `to_owned` makes an
//! owned message.

mod definition_ref;
mod key_ref;
mod message_ref;
mod names;
mod other_ref;
mod update_ref;
mod values_ref;

pub use definition_ref::DefinitionRef;
pub use key_ref::KeyRef;
pub use message_ref::MessageRef;
pub use other_ref::OtherRef;
pub use update_ref::UpdateRef;
pub use values_ref::ValuesRef;

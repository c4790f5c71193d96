//! The names that fields are given in JSON.

ghost use Rattle.std.specs.Prelude.{◌≡◌, ◌==◌, ◌&&◌, ◌↔◌, ℕ, Some, option_map, string_bytes, if◌then◌else◌, IfErr, IsTrue, OnOk};
ghost use Rattle.pb_json.specs.Given.{name_given, none_given};

use pb_schema::MessageId;
use std::alloc::{AllocError, Global};
use std::collections::BTreeMap;
use std::marker::Model;

/// The names that fields are given in JSON, by the option `json_name`, in place of those in lowerCamelCase.
#[derive(Debug, Drop)]
pub struct JsonNames {
    names: BTreeMap<(usize, u32), String>,
}

impl Model for JsonNames {
    ghost use Rattle.pb_json.specs.Given.{NamesGiven};

    ghost Value = { NamesGiven };

    ghost use Rattle.std.specs.Prelude.{map, string_bytes};

    ghost view = { λ s. map (λ e. (e.0, string_bytes e.1)) s.names.entries };
}

impl JsonNames {
    /// No names.
    pub fn none(alloc: Global) -> JsonNames
        ensures { result ≡ none_given }
    {
        JsonNames {
            names: BTreeMap::new(alloc),
        }
    }

    /// Whether no field is given a name.
    pub fn is_empty(&self) -> bool
        ensures { IsTrue result ↔ (self.now ≡ none_given) }
    {
        self.names.is_empty()
    }

    /// The name that the field of a number is given, in a message type.
    pub fn given(&self, message: MessageId, number: u32) -> Option<&str>
        ensures { option_map (λ s. s.now) result ≡ name_given self.now message.0 number }
    {
        match self.names.get(&(message.0, number)) {
            Some(name) => Some(name.as_str()),
            None => None,
        }
    }

    /// Gives the field of a number a name, in a message type, in place of one that it was given before.
    pub fn give(&mut self, message: MessageId, number: u32, name: String) -> Result<(), AllocError>
        ensures given { OnOk result ((m n : ℕ)
            → name_given self.new m n ≡ (if (m == message.0) && (n == number) then Some (string_bytes name) else name_given self.old m n)) }
        ensures same { IfErr result (λ _. self.new ≡ self.old) }
    {
        self.names.insert((message.0, number), name)?;
        Ok(())
    }
}

// What a value stands for, where it is a whole number, a truth value or a text.
ghost use Rattle.std.specs.Prelude.{◌≡◌, option_map};
ghost use Rattle.cy_text.specs.Reads.{whole_of, truth_of, text_of};

use crate::Value;
use std::str;

impl Value {
    /// The whole number; none for any other value.
    pub fn whole(&self) -> Option<i128>
        ensures { result ≡ whole_of self.now }
    {
        match self {
            Value::Whole { negative, size } => {
                let size = i128::from(*size);
                Some(if *negative { -size } else { size })
            }
            _ => None,
        }
    }

    /// The truth value: a word `true`, `True`, `t`, `false`, `False` or `f`, or a whole number 1 or
    /// 0, each without a sign. None for any other value.
    pub fn truth(&self) -> Option<bool>
        ensures { result ≡ truth_of self.now }
    {
        match self {
            Value::Word {
                negative: false,
                text,
            } => match text.as_str() {
                "true" | "True" | "t" => Some(true),
                "false" | "False" | "f" => Some(false),
                _ => None,
            },
            Value::Whole {
                negative: false,
                size: 1,
            } => Some(true),
            Value::Whole {
                negative: false,
                size: 0,
            } => Some(false),
            _ => None,
        }
    }

    /// The text of a string in UTF-8; none for any other value.
    #[tactic(auto, using(crate::proofs::Utf8::text_found, crate::proofs::Utf8::no_text_found))]
    pub fn text(&self) -> Option<&str>
        ensures { option_map (λ text. text.now) result ≡ text_of self.now }
    {
        match self {
            Value::Quote(bytes) => match str::from_utf8(bytes.as_slice()) {
                Ok(text) => Some(text),
                Err(_) => None,
            },
            _ => None,
        }
    }
}

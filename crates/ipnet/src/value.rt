//! Networks as JSON values: a string with the printed text.
ghost use Rattle.std.specs.Prelude.{◌≡◌, IfOk, MatchResult};
ghost use Rattle.serde_json.specs.Data.{string};
ghost use Rattle.serde_json.specs.View.{view};
ghost use Rattle.ipnet.specs.IpNetText.{Reads, net_text};
ghost use Rattle.ipnet_blocks.specs.Networks.{Network};
ghost use Rattle.ipnet.specs.declared.ip_net.IpNet.{IpNet as AnyNet};
ghost use Rattle.ipnet.specs.Forms.{IsStringOf};

use crate::ip_net::IpNet;
use crate::networks::Net;
use crate::text::{AddrParseError, FamilyText};
use serde_json::Value;
use std::alloc::{AllocError, Global};
use std::str::FromStr;

impl<N: FamilyText> Net<N> {
    /// Returns the network's text as a JSON string.
    ///
    /// # Errors
    /// - `AllocError`: if an allocation fails.
    ///
    /// # Examples
    /// For `net`, 10.1.2.3/16:
    ///
    /// ```rust
    /// let value = net.to_value(rt.alloc()).expect(&rt, "memory");
    /// assert_eq!(rt; value.as_str(), Some("10.1.2.3/16"));
    /// ```
    pub fn to_value(&self, alloc: Global) -> Result<Value, AllocError>
        ensures { IfOk result (λ v. view v ≡ string (N.text self.now)) }
    {
        Ok(Value::String(format!(in alloc; "{self}")?))
    }

    /// Reads the network that a JSON string spells.
    ///
    /// # Errors
    /// - `AddrParseError`: exactly if the value isn't a string that spells a network.
    ///
    /// # Examples
    /// For `value`, which `to_value` returned for `net`:
    ///
    /// ```rust
    /// assert_eq!(rt; Ipv4Net::from_value(&value), Ok(net));
    /// ```
    pub fn from_value(value: &Value) -> Result<Net<N>, AddrParseError>
        ensures { MatchResult result (IsStringOf N.reads (view value.now)) (λ _. (n : Network) → IsStringOf N.reads (view value.now) n → ⊥) }
    {
        match value.as_str() {
            Some(text) => Net::from_str(text),
            None => Err(AddrParseError(())),
        }
    }
}

impl IpNet {
    /// Returns the network's text as a JSON string.
    ///
    /// # Errors
    /// - `AllocError`: if an allocation fails.
    pub fn to_value(&self, alloc: Global) -> Result<Value, AllocError>
        ensures { IfOk result (λ v. view v ≡ string (net_text self.now)) }
    {
        match self {
            IpNet::V4(net) => net.to_value(alloc),
            IpNet::V6(net) => net.to_value(alloc),
        }
    }

    /// Reads the network that a JSON string spells.
    ///
    /// # Errors
    /// - `AddrParseError`: exactly if the value isn't a string that spells a network.
    pub fn from_value(value: &Value) -> Result<IpNet, AddrParseError>
        ensures { MatchResult result (IsStringOf Reads (view value.now)) (λ _. (n : AnyNet) → IsStringOf Reads (view value.now) n → ⊥) }
    {
        match value.as_str() {
            Some(text) => IpNet::from_str(text),
            None => Err(AddrParseError(())),
        }
    }
}

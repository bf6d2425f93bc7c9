//! A design as its bits.

ghost use Rattle.std.specs.Prelude.{◌≡◌, ◌<◌, All, false, length, replicate, slice_index_or, slice_set, IfOk};
ghost use Rattle.spec_model.specs.Spec.{design_variables};
ghost use Rattle.impl_rules.specs.Bytes.{bits_in, IsBit};

use spec_graph::Spec;
use std::alloc::{AllocError, Global};
use std::marker::Model;

/// What is chosen, used and allocated: a bit for each design variable of a specification, by the variable's number.
#[derive(Drop)]
pub struct Design {
    bytes: Vec<u8>,
}

impl Model for Design {
    ghost use Rattle.std.specs.Prelude.{List, Bool, All};
    ghost use Rattle.impl_rules.specs.Bytes.{bits_in, IsBit};

    ghost Value = { List Bool };

    ghost view = { λ d. bits_in d.bytes.items };

    ghost invariant = { λ d. All IsBit d.bytes.items };
}

impl Design {
    /// The design of a specification in which nothing is chosen, used or allocated.
    pub fn empty(alloc: Global, spec: &Spec) -> Result<Design, AllocError>
        ensures { IfOk result (λ d. d ≡ replicate (design_variables spec.now) false) }
    {
        let bytes = vec![in alloc; 0u8; spec.design_variables() as usize]?;
        Ok(Design { bytes })
    }

    /// The bit of a design variable.
    pub fn get(&self, v: u64) -> bool
        requires { v < length self.now }
        ensures { result ≡ slice_index_or self.now v false }
    {
        self.bytes[v as usize] == 1
    }

    /// Makes a design variable true or false.
    pub fn set(&mut self, v: u64, bit: bool)
        requires { v < length self.old }
        ensures { self.new ≡ slice_set self.old v bit }
    {
        self.bytes[v as usize] = u8::from(bit);
    }

    /// A copy. It is refused only for want of memory.
    pub fn copy(&self, alloc: Global) -> Result<Design, AllocError>
        ensures { IfOk result (λ d. d ≡ self.now) }
    {
        let bytes = Vec::from_slice(alloc, &self.bytes)?;
        Ok(Design { bytes })
    }

    /// The bits as bytes 0 and 1, by the number of the variable.
    pub fn bytes(&self) -> &[u8]
        ensures bits { self.now ≡ bits_in result.now }
        ensures zero_or_one { All IsBit result.now }
    {
        &self.bytes
    }
}

//! Maps with names, which cases begin with: the parts `=map NAME` of a file of cases, with the bytes in pairs of digits.

use crate::words::hexadecimal;
use case_files::CaseLine;
use std::alloc::{AllocError, Global};

/// The bytes of maps, by their names.
#[derive(Drop)]
pub(crate) struct Bases {
    names: Vec<String>,
    maps: Vec<Vec<u8>>,
}

impl Bases {
    pub(crate) fn new(alloc: Global) -> Bases {
        Bases {
            names: Vec::new(alloc),
            maps: Vec::new(alloc),
        }
    }

    // Keeps the map of this name, whose bytes these lines spell.
    pub(crate) fn add(
        &mut self,
        alloc: Global,
        name: &str,
        lines: &[CaseLine],
    ) -> Result<(), AllocError> {
        let mut map = Vec::new(alloc);
        for line in lines {
            map.extend_from_slice(&hexadecimal(alloc, line.text.as_bytes())?)?;
        }
        self.names.push(String::from_str(alloc, name)?)?;
        self.maps.push(map)?;
        Ok(())
    }

    // The bytes of the map of this name.
    pub(crate) fn named(&self, name: &str) -> Option<&[u8]> {
        let place = self.names.iter().position(|one| one.as_str() == name)?;
        self.maps.get(place).map(|map| map.as_slice())
    }
}

//! An index of a stack map, as what a walk finds its records in.

ghost use Rattle.frame_walk.specs.Maps.{found_in, frame_entry};
ghost use Rattle.stackmap_view.specs.Views.{seen};

use crate::records::{FrameMap, FrameRecord};
use map_bytes::Place;
use stackmap_view::{MapIndex, RecordRef};

impl<'a> FrameRecord for RecordRef<'a> {
    ghost entry = { λ one. frame_entry (seen one) };

    fn frame_bytes(&self) -> u64 {
        RecordRef::frame_bytes(self)
    }

    fn places(&self) -> u32 {
        RecordRef::places(self)
    }

    fn place(&self, index: u32) -> Place {
        RecordRef::place(self, index)
    }
}

impl<'a> FrameMap for MapIndex<'a> {
    type Record = RecordRef<'a>;

    ghost found = { λ index. found_in index.whole };

    ghost constants = { λ index. index.whole.constants };

    fn find(&self, return_address: u64) -> Option<RecordRef<'a>> {
        MapIndex::find(self, return_address)
    }

    fn constant(&self, index: u32) -> u64 {
        MapIndex::constant(self, index)
    }
}

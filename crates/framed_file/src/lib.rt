//! A file of a 32-byte header and chained frames: which crash images of it are faithful, and what they hold.
//!
//! One idea makes it right: no torn record passes its checksum by chance (`IsFaithful`), so what stands in a crash image of a file to
//! which bytes were only added is what was written there: all that was synced, and of the rest a first part. The log and the
//! engines' journals are such files. Definitions and lemmas alone, over `disk_model` and `frame_codec`.
#![tactic(auto)]

//! Workers over scripted gates, pairs of them on threads, and sessions over scripted devices.

mod accepts;
mod copies;
mod fake_desk;
mod pairs;
mod refused_memory;
mod replies;
mod sessions;

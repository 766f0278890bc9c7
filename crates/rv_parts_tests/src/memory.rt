mod ram;
mod stale;

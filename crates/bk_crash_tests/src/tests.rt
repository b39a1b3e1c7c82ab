//! Stores whose power fails. Each is opened again on what is left and compared with what was
//! published.

mod chance;
mod finding;
mod life;
mod owed;
mod powered;
mod random;
mod steps;
mod stop;
mod test_file;
mod worked;

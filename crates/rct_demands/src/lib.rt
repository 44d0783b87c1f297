// What the calls are demanded to do together: to read back what was written, to rebuild what was read, and to replace two links in either order. This crate has the definitions and the theorems; the calls are in `rct_reader`, `rct_links`, `rct_maker` and `rct_editor`.
#![tactic(auto)]

#![tactic(auto)]

// The C interface (include/barcovento.h): each call is handed on to the plain function of its name. Every call returns 0 and sets its
// outputs, or returns the refusal's number and leaves every output untouched.
mod bitmap_reading;
mod bitmap_writing;
mod bucket_calls;
mod number_calls;
mod row_calls;
mod store_calls;

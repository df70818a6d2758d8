// A store of bitmaps: its definitions, in specs/. Inner: no entry point.
#![tactic(auto)]

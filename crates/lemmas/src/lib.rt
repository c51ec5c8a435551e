// No code: general definitions in specs/, their laws in proofs/.

mod refused;
